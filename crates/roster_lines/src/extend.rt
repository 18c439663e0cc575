//! The lines of a person, from each line to those that go on from it.

ghost use Rattle.std.specs.Prelude.{◌≡◌, ◌<◌, ◌≤◌, ◌++◌, ◌∷◌, ℕ, [], true, IfErr, IfOk, List, OnOk, Some};
ghost use Rattle.std.specs.Prelude.{length, slice_get};
ghost use Rattle.roster_model.specs.Lines.{AreLines};
ghost use Rattle.roster_model.specs.Rules.{is_among};
ghost use Rattle.roster_lines_table.specs.Entries.{sets_of};
ghost use Rattle.roster_lines_table.specs.Person.{AreCosted};
ghost use Rattle.roster_lines.specs.Between.{IsBetween};
ghost use Rattle.roster_lines.specs.Listing.{ArePairs, ArePartsLegal, HoldOnly, IsFlightWithin, IsStem};
ghost use Rattle.roster_lines.specs.Listing.{IsUpTo, LineWith, judged_as};
ghost use Rattle.roster_lines.specs.SomeLines.{AreWantedLines, IsFaultOf, IsFaultWithin};

use crate::pairs::{Pairs, pairs_of};
use crate::stem::Stem;
use crate::wanted::{Between, Everything, Wanted};
use roster_legal::{Judge, JudgedSet, Loads, Spare, part_of_legal_is_legal};
use roster_lines_table::Lines;
use roster_model::limits::MOST_LINES;
use roster_problem::Problem;
use roster_values::Set;
use std::alloc::{AllocError, Global};
use thiserror::Error;

/// Why the lines of a person aren't listed.
#[derive(Debug, Drop, Error)]
pub enum LinesFault {
    /// The person has more than `MOST_LINES`.
    #[error("too many lines")]
    TooMany,
    /// Memory ran out.
    #[error("out of memory")]
    Memory,
}

impl From<AllocError> for LinesFault {
    ghost use Rattle.std.specs.Prelude.{◌≡◌};
    ghost use Rattle.roster_lines.specs.declared.extend.LinesFault.TheVariants.{Memory};

    ghost from_gives = { λ _ e. e ≡ Memory };

    fn from(_: AllocError) -> LinesFault {
        LinesFault::Memory
    }
}

/// All lines of person `k`, in their order, with what they cost.
pub fn lines_of(alloc: Global, problem: &Problem, k: usize) -> Result<Lines, LinesFault>
    requires { k < length problem.now.persons }
    ensures lines { IfOk result (λ lines. AreLines problem.now k (sets_of lines)) }
    ensures costs { IfOk result (AreCosted problem.now k) }
    ensures few { IfOk result (λ lines. length lines ≤ MOST_LINES) }
    ensures fault { IfErr result (IsFaultOf problem.now k) }
{
    wanted_lines(alloc, problem, k, &Everything, MOST_LINES)
}

/// The lines of person `k` that hold all of `must` and nothing but what is in `must` or `may`, with what
/// they cost, if no more than `most` lines come up. Others may be among them: those that these go on from.
pub fn lines_between(
    alloc: Global,
    problem: &Problem,
    k: usize,
    must: Set,
    may: Set,
    most: usize,
) -> Result<Lines, LinesFault>
    requires person { k < length problem.now.persons }
    requires limit { (0 < most) × (most ≤ MOST_LINES) }
    ensures lines { IfOk result
        (λ lines. AreWantedLines problem.now k (IsBetween must may) (sets_of lines)) }
    ensures costs { IfOk result (AreCosted problem.now k) }
    ensures few { IfOk result (λ lines. length lines ≤ most) }
    ensures fault { IfErr result (IsFaultWithin problem.now k most) }
{
    wanted_lines(alloc, problem, k, &Between { must, may }, most)
}

/// The lines of person `k` that are wanted, in their order, with what they cost, if no more than `most`
/// lines come up. Others may be among them: each is a line, and each goes on from one that is there.
pub fn wanted_lines<W: Wanted>(
    alloc: Global,
    problem: &Problem,
    k: usize,
    wanted: &W,
    most: usize,
) -> Result<Lines, LinesFault>
    requires person { k < length problem.now.persons }
    requires limit { (0 < most) × (most ≤ MOST_LINES) }
    ensures lines { IfOk result (λ lines. AreWantedLines problem.now k
        (W.wants wanted.now problem.now k) (sets_of lines)) }
    ensures costs { IfOk result (AreCosted problem.now k) }
    ensures few { IfOk result (λ lines. length lines ≤ most) }
    ensures fault { IfErr result (IsFaultWithin problem.now k most) }
{
    parts_are_legal(problem);
    let mut judge = Judge::new(alloc, problem);
    let pairs = pairs_of(alloc, &mut judge, problem, k)?;
    lines_of_pairs(alloc, problem, k, &pairs, wanted, most)
}

/// `wanted_lines`, for which the pairs of person `k` are known.
pub fn lines_of_pairs<W: Wanted>(
    alloc: Global,
    problem: &Problem,
    k: usize,
    pairs: &Pairs,
    wanted: &W,
    most: usize,
) -> Result<Lines, LinesFault>
    requires person { k < length problem.now.persons }
    requires pairs { ArePairs problem.now k pairs.now }
    requires limit { (0 < most) × (most ≤ MOST_LINES) }
    ensures lines { IfOk result (λ lines. AreWantedLines problem.now k
        (W.wants wanted.now problem.now k) (sets_of lines)) }
    ensures costs { IfOk result (AreCosted problem.now k) }
    ensures few { IfOk result (λ lines. length lines ≤ most) }
    ensures fault { IfErr result (IsFaultWithin problem.now k most) }
{
    parts_are_legal(problem);
    let root = Stem::root(problem, k, wanted.among(&pairs.alone));
    let loads = Loads::new(alloc, problem, k, root.among)?;
    let judged = JudgedSet::empty(alloc, &loads)?;
    let mut lines = Lines::empty(alloc, root.cost(problem, k))?;
    let mut spare = Spare::new(alloc);
    let listing = Listing {
        problem,
        k,
        wanted,
        most,
        pairs,
    };
    extend(&listing, &mut spare, &judged, &root, &mut lines)?;
    Ok(lines)
}

/// Which lines are listed: those of person `k` that are wanted, and no more than `most`. The pairs are those
/// of the person.
#[derive(Drop)]
struct Listing<'a, W> {
    problem: &'a Problem,
    k: usize,
    wanted: &'a W,
    most: usize,
    pairs: &'a Pairs,
}

/// Appends the lines that go on from the stem, in their order: all but what isn't wanted, nor any behind.
fn extend<W: Wanted>(
    listing: &Listing<'_, W>,
    spare: &mut Spare,
    judged: &JudgedSet<'_>,
    stem: &Stem,
    lines: &mut Lines,
) -> Result<(), LinesFault>
    requires judged { judged.now
        ≡ judged_as listing.now.problem.now listing.now.k stem.now.among stem.now.set }
    requires person { listing.now.k < length listing.now.problem.now.persons }
    requires limit { listing.now.most ≤ MOST_LINES }
    requires parts { ArePartsLegal listing.now.problem.now listing.now.k }
    requires flown { IsFlightWithin listing.now.problem.now listing.now.k }
    requires pairs { ArePairs listing.now.problem.now listing.now.k listing.now.pairs.now }
    requires stem { IsStem listing.now.problem.now listing.now.k stem.now }
    requires only { HoldOnly listing.now.problem.now listing.now.k
        (W.wants listing.now.wanted.now listing.now.problem.now listing.now.k) stem.now.among }
    requires number { slice_get (sets_of lines.old) stem.now.number ≡ Some stem.now.set }
    requires before { IsUpTo listing.now.problem.now listing.now.k
        (W.wants listing.now.wanted.now listing.now.problem.now listing.now.k)
        (stem.now.set ++ 0 ∷ []) (sets_of lines.old) }
    requires costs { AreCosted listing.now.problem.now listing.now.k lines.old }
    requires few { length lines.old ≤ listing.now.most }
    ensures lines { OnOk result (IsUpTo listing.now.problem.now listing.now.k
        (W.wants listing.now.wanted.now listing.now.problem.now listing.now.k)
        (stem.now.set ++ length listing.now.problem.now.pairings ∷ []) (sets_of lines.new)) }
    ensures costs { OnOk result (AreCosted listing.now.problem.now listing.now.k lines.new) }
    ensures few { OnOk result (length lines.new ≤ listing.now.most) }
    ensures kept { OnOk result ((i : ℕ) (set : List ℕ)
        → slice_get (sets_of lines.old) i ≡ Some set
        → slice_get (sets_of lines.new) i ≡ Some set) }
    ensures fault { IfErr result
        (IsFaultWithin listing.now.problem.now listing.now.k listing.now.most) }
{
    let (problem, k) = (listing.problem, listing.k);
    let mut from = 0;
    while let Some(p) = stem.candidates.first_from(from) {
        if let Some(longer) = line_with(listing, spare, judged, stem, p)? {
            if lines.width() == listing.most {
                return Err(LinesFault::TooMany);
            }
            let below = stem.below(problem, k, listing.pairs, p, lines.width());
            lines.push(stem.number, p, below.cost(problem, k))?;
            extend(listing, spare, &longer, &below, lines)?;
            longer.done(spare);
        }
        from = p + 1;
    }
    Ok(())
}

/// The set of the stem with the candidate behind, if that is a line, and it or one that begins with it may
/// be wanted.
fn line_with<'a, W: Wanted>(
    listing: &Listing<'_, W>,
    spare: &mut Spare,
    judged: &JudgedSet<'a>,
    stem: &Stem,
    p: usize,
) -> Result<Option<JudgedSet<'a>>, AllocError>
    requires judged { judged.now
        ≡ judged_as listing.now.problem.now listing.now.k stem.now.among stem.now.set }
    requires person { listing.now.k < length listing.now.problem.now.persons }
    requires parts { ArePartsLegal listing.now.problem.now listing.now.k }
    requires stem { IsStem listing.now.problem.now listing.now.k stem.now }
    requires candidate { is_among stem.now.candidates p ≡ true }
    ensures { IfOk result (LineWith listing.now.problem.now listing.now.k
        (W.wants listing.now.wanted.now listing.now.problem.now listing.now.k) stem.now p) }
{
    let (wanted, problem) = (listing.wanted, listing.problem);
    if !wanted.goes_on(problem, listing.k, &stem.set, p, stem.units, stem.flight) {
        return Ok(None);
    }
    let found = judged.with(p, spare)?;
    Ok(found)
}

/// What is part of a legal set is legal.
pub(crate) fn parts_are_legal(problem: &Problem)
    ensures { (k : ℕ) → ArePartsLegal problem.now k }
{
    part_of_legal_is_legal();
    problem.is_sound();
}
