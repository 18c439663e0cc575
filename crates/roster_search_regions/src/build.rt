//! Regions from the lines of a table.

ghost use Rattle.std.specs.Prelude.{[], ◌≡◌, ◌<◌, ◌≤◌, ◌+◌, ◌^◌, ◌*◌, ◌*ℤ◌, ℕ, pos, IsTrue, ◌↔◌, List, OnOk};
ghost use Rattle.std.specs.Prelude.{IfOk, All, get_or, length, slice_get, slice_index, max, take, Some};
ghost use Rattle.roster_cost.specs.Amounts.{IsWithin, most_extra};
ghost use Rattle.roster_lines_table.specs.Entries.{Entry, sets_of};
ghost use Rattle.roster_lines_table.specs.Person.{lines_at, AreListed};
ghost use Rattle.roster_search_regions.specs.Building.{allowed_between, extra_in, AreCountedBefore, AreNearBefore};
ghost use Rattle.roster_model.specs.Rosters.{IsLegalRoster};
ghost use Rattle.roster_search_regions.specs.Regions.{AllowedLine, IsIn, IsInRanges, IsRegion};
ghost use Rattle.roster_search_regions.specs.Trees.{next_path, IsLimited};
ghost use Rattle.roster_search_regions.specs.Writing.{IsWriting};

use crate::choice::{Choice, FAIR_DUAL_PRICE, MOST_EXTRA, MOST_SCALE};
use crate::parts::{above, times};
use crate::path::Path;
use crate::region::Region;
use crate::shared::Shared;
use crate::tree::Tree;
use crate::units::unit_of;
use crate::writer::Writer;
use roster_cost::{cost_without_pairings, lines_are_near, shares_add_up};
use roster_lines_table::{Lines, Table};
use roster_problem::Problem;
use roster_values::Set;
use std::alloc::{AllocError, Global};

/// The way to a line, and what is written of the lines before it.
#[derive(Drop)]
struct Copying {
    path: Path,
    writer: Writer,
}

impl Copying {
    /// Goes on to the next choice.
    fn step(&mut self, choice: &Choice) -> Result<(), AllocError>
        requires { IsLimited choice.now }
        ensures path { OnOk result (self.new.path ≡ next_path self.old.path choice.now) }
        ensures writing { OnOk result ((lines : List AllowedLine)
            → IsWriting self.old.writer self.old.path lines
            → IsWriting self.new.writer self.new.path lines) }
    {
        self.path.step(choice)?;
        self.writer.pass(choice);
        Ok(())
    }

    /// Goes back to so many of the path's pairings, the first ones.
    fn cut(&mut self, depth: usize) -> Result<(), AllocError>
        requires { depth ≤ length self.old.path }
        ensures path { OnOk result (self.new.path ≡ take depth self.old.path) }
        ensures writing { OnOk result ((lines : List AllowedLine)
            → IsWriting self.old.writer self.old.path lines
            → IsWriting self.new.writer self.new.path lines) }
    {
        if depth == self.path.length() {
            return Ok(());
        }
        let last = if depth == 0 {
            0
        } else {
            self.path.last(depth - 1)
        };
        self.step(&on_the_way(depth, last))
    }

    /// Whether the pairing at place `p` stands on the path behind so many others.
    fn is_at(&self, depth: usize, p: usize) -> bool
        ensures there { IsTrue result → (depth < length self.now.path) }
        ensures same { IsTrue result → (slice_index self.now.path depth ≡ p) }
    {
        depth < self.path.length() && usize::from(self.path.last(depth)) == p
    }

    /// Goes on to the line with the set.
    fn go_to(&mut self, set: &Set) -> Result<(), AllocError>
        ensures path { OnOk result (self.new.path ≡ set.now) }
        ensures writing { OnOk result ((lines : List AllowedLine)
            → IsWriting self.old.writer self.old.path lines
            → IsWriting self.new.writer self.new.path lines) }
    {
        let mut depth = 0;
        let mut from = 0;
        while let Some(p) = set.first_from(from) {
            if !self.is_at(depth, p) {
                self.step(&on_the_way(depth + 1, p as u16))?;
            }
            depth += 1;
            from = p + 1;
        }
        self.cut(depth)
    }
}

/// A choice that is no line of its own.
fn on_the_way(depth: usize, last: u16) -> Choice
    requires { depth < 2 ^ 16 }
    ensures depth { result.depth ≡ depth }
    ensures last { result.last ≡ last }
    ensures extra { result.extra ≡ pos 0 }
{
    Choice {
        extra: 0,
        depth: depth as u16,
        last,
        live: false,
    }
}

/// What line `i` costs more than the first one.
pub(crate) fn above_first(lines: &Lines, i: usize) -> i64
    requires near { All (λ entry. IsWithin most_extra (extra_in lines.now entry)) lines.now }
    requires inside { i < length lines.now }
    ensures value { (entry : Entry) → slice_get lines.now i ≡ Some entry
        → result ≡ extra_in lines.now entry }
    ensures bound { IsWithin most_extra result }
{
    above(lines.cost(i), lines.cost(0))
}

/// What line `i` costs more than the first one, at so many parts a cost unit.
fn extra_of(lines: &Lines, i: usize, scale: u32) -> i64
    requires counted { AreCountedBefore scale (i + 1) lines.now }
    requires near { All (λ entry. IsWithin most_extra (extra_in lines.now entry)) lines.now }
    requires inside { i < length lines.now }
    ensures value { (entry : Entry) → slice_get lines.now i ≡ Some entry
        → result ≡ pos scale *ℤ extra_in lines.now entry }
    ensures bound { IsWithin MOST_EXTRA result }
{
    times(scale, above_first(lines, i))
}

/// The larger of two numbers.
fn larger(a: u64, b: u64) -> u64
    ensures { result ≡ max a b }
{
    if a < b { b } else { a }
}

/// The most that one of the first so many lines costs more than the empty one, or less.
fn greatest_extra(lines: &Lines, most: usize) -> u64
    requires near { All (λ entry. IsWithin most_extra (extra_in lines.now entry)) lines.now }
    ensures bound { result ≤ most_extra }
    ensures all { AreNearBefore result most lines.now }
{
    let mut greatest = 0;
    for i in 0..most.min(lines.width()) {
        greatest = larger(greatest, above_first(lines, i).unsigned_abs());
    }
    greatest
}

/// A copy of the lines whose numbers are in the range, at so many parts a cost unit.
fn copy_of(
    alloc: Global,
    lines: &Lines,
    range: (usize, usize),
    scale: u32,
) -> Result<Tree, AllocError>
    requires counted { AreCountedBefore scale range.1 lines.now }
    requires near { All (λ entry. IsWithin most_extra (extra_in lines.now entry)) lines.now }
    ensures { IfOk result (λ tree. tree ≡ allowed_between scale lines.now range.0 range.1) }
{
    let mut copying = Copying {
        path: Path::new(alloc),
        writer: Writer::new(alloc),
    };
    let end = range.1.min(lines.width());
    let start = range.0.min(end);
    for i in start..end {
        copying.go_to(&lines.set(i))?;
        let choice = Choice {
            extra: extra_of(lines, i, scale),
            depth: copying.path.length() as u16,
            last: copying.path.last_or_none(),
            live: true,
        };
        copying.writer.keep(&copying.path, &choice, true)?;
    }
    Ok(Tree::of(copying.writer))
}

/// Person `k`'s lines whose numbers are in the range, at so many parts a cost unit. All of them stay in
/// the table. Of a part the first ones may go on from lines before it, so a part is copied.
fn tree_of(
    alloc: Global,
    table: &Table,
    k: usize,
    range: (usize, usize),
    scale: u32,
) -> Result<Tree, AllocError>
    requires person { k < length table.now }
    requires counted { AreCountedBefore scale range.1 (lines_at table.now k) }
    requires near { All (λ entry. IsWithin most_extra (extra_in (lines_at table.now k) entry))
        (lines_at table.now k) }
    requires first { slice_get (sets_of (lines_at table.now k)) 0 ≡ Some [] }
    ensures { IfOk result
        (λ tree. tree ≡ allowed_between scale (lines_at table.now k) range.0 range.1) }
{
    if range.0 == 0 && table.width(k) <= range.1 {
        let lines = table.shared(k)?;
        return Ok(Tree::whole(alloc, lines, scale));
    }
    copy_of(alloc, table.lines(k), range, scale)
}

/// The greatest penalty, and 1 at least.
fn greatest_penalty(problem: &Problem) -> u64
    ensures some { 0 < result }
    ensures most { result ≤ most_extra }
{
    let mut greatest = 1;
    for p in 0..problem.pairings().len() {
        greatest = larger(greatest, u64::from(problem.pairing(p).penalty));
    }
    greatest
}

/// So many parts of a cost unit that prices about as high as this number of units can be told in them.
fn scale_for(greatest: u64) -> u32
    requires some { 0 < greatest }
    requires most { greatest ≤ most_extra }
    ensures some { 0 < result }
    ensures most { result ≤ MOST_SCALE }
    ensures room { result * greatest ≤ MOST_EXTRA }
{
    let parts = FAIR_DUAL_PRICE / greatest;
    if parts < u64::from(MOST_SCALE) {
        (parts as u32).max(1)
    } else {
        MOST_SCALE
    }
}

/// How many parts a cost unit is counted in: as many as there is room for at the lines before the end of
/// each person's range, and in dual prices of the size of these lines' costs and of penalties.
pub(crate) fn scale_of(problem: &Problem, table: &Table, ranges: &[(usize, usize)]) -> u32
    requires table { AreListed problem.now table.now }
    requires ranges { length ranges.now ≡ length table.now }
    ensures some { 0 < result }
    ensures most { result ≤ MOST_SCALE }
    ensures counted { (k : ℕ) → k < length problem.now.persons
        → AreCountedBefore result (get_or ranges.now k (0, 0)).1 (lines_at table.now k) }
    ensures near { (k : ℕ) → k < length problem.now.persons
        → All (λ entry. IsWithin most_extra (extra_in (lines_at table.now k) entry))
        (lines_at table.now k) }
{
    problem.is_sound();
    lines_are_near();
    let mut greatest = greatest_penalty(problem);
    for k in 0..problem.persons().len() {
        greatest = larger(greatest, greatest_extra(table.lines(k), ranges[k].1));
    }
    scale_for(greatest)
}

impl Region {
    /// All rosters in which each person has a line whose number is in the person's range: from its first
    /// number up to the second, which isn't in it.
    pub fn of_ranges(
        alloc: Global,
        problem: &Problem,
        table: &Table,
        ranges: &[(usize, usize)],
    ) -> Result<Region, AllocError>
        requires table { AreListed problem.now table.now }
        requires ranges { length ranges.now ≡ length table.now }
        ensures region { IfOk result (IsRegion problem.now) }
        ensures same { IfOk result (λ region. (places : List ℕ) → IsIn problem.now region places
            ↔ (IsLegalRoster problem.now places × IsInRanges table.now ranges.now places)) }
    {
        shares_add_up();
        let scale = scale_of(problem, table, ranges);
        let unit = unit_of(problem, table, ranges);
        let mut persons = Vec::new(alloc);
        for k in 0..problem.persons().len() {
            let tree = tree_of(alloc, table, k, ranges[k], scale)?;
            persons.push(Shared::new(alloc, tree)?)?;
        }
        Ok(Region {
            persons,
            left_open: Set::empty(),
            flown: Set::empty(),
            least_open: 0,
            most_open: problem.pairings().len(),
            scale,
            idle: cost_without_pairings(problem),
            unit,
        })
    }
}
