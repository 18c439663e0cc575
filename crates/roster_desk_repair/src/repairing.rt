//! A text that is a repair.

ghost use Rattle.std.specs.Prelude.{◌≡◌, ◌-ℤ◌, IfErr, IfOk, IfSome, length};
ghost use Rattle.roster_model.specs.Costs.{cost_of};
ghost use Rattle.roster_desk_made.specs.Made.{IsRead, TellsFault};
ghost use Rattle.roster_desk_repair_judged.specs.Terms as asked;
ghost use Rattle.roster_desk_repair.specs.Made.{IsMade};

use crate::keeping::Kept;
use crate::writing::repaired_text;
use roster_cost::roster_cost;
use roster_desk_made::{MadeBook, Unmade, book_of};
use roster_desk_repair_judged::{Terms, fixed_of, is_repair, rest_of};
use roster_desk_repair_terms::{published_is_whole, repair_keeps_costs, repair_keeps_duties};
use roster_problem::Problem;
use std::alloc::Global;

/// A repaired book.
#[derive(Drop)]
pub struct RepairedBook {
    /// Its text.
    pub text: Vec<u8>,
    /// What it asks to be rostered.
    pub problem: Problem,
    /// For each pairing of the book, in its order, the number that it keeps, or none if it is rostered anew.
    pub fixed: Vec<Option<u16>>,
    /// What a roster costs less in it than the whole one in the book, if nothing moves.
    pub constant: i64,
}

/// What the published roster costs in the book more than its rest in the repaired one, if that is a number of
/// this size.
fn constant_of(book: &Problem, published: &[u16], repaired: &Problem, rest: &[u16]) -> Option<i64>
    requires covers { length published.now ≡ length book.now.pairings }
    requires rest { length rest.now ≡ length repaired.now.pairings }
    ensures { IfSome result
        (λ constant. constant ≡ cost_of book.now published.now -ℤ cost_of repaired.now rest.now) }
{
    roster_cost(book, published).checked_sub(roster_cost(repaired, rest))
}

/// The repair that was read, if it is one.
fn made(
    alloc: Global,
    book: &Problem,
    published: &[u16],
    terms: &Terms,
    fixed: Vec<Option<u16>>,
    read: MadeBook,
) -> Result<RepairedBook, Unmade>
    requires covers { length published.now ≡ length book.now.pairings }
    requires fixed { fixed.items ≡ asked.fixed_of book.now terms.now published.now }
    requires read { IsRead read }
    ensures made { IfOk result (IsMade book.now published.now terms.now) }
    ensures fault { IfErr result TellsFault }
{
    repair_keeps_costs();
    repair_keeps_duties();
    let MadeBook { text, problem } = read;
    let rest = rest_of(alloc, &fixed, published)?;
    let covers = rest.len() == problem.pairings().len();
    if !covers || !is_repair(book, published, &fixed, terms, &problem) {
        return Err(Unmade::Unlike);
    }
    let Some(constant) = constant_of(book, published, &problem, &rest) else {
        return Err(Unmade::Unlike);
    };
    Ok(RepairedBook {
        text,
        problem,
        fixed,
        constant,
    })
}

/// The repair of a book, whose bytes are the text: what the terms ask for of a published roster. None is
/// given if its book would have a fault, as units below their limit, or leave of a person who is under way.
pub fn repair(
    alloc: Global,
    text: &[u8],
    book: &Problem,
    published: &[u16],
    terms: &Terms,
) -> Result<RepairedBook, Unmade>
    requires { length published.now ≡ length book.now.pairings }
    ensures made { IfOk result (IsMade book.now published.now terms.now) }
    ensures fault { IfErr result TellsFault }
{
    let fixed = fixed_of(alloc, book, terms, published)?;
    let kept = Kept {
        book,
        published,
        fixed: &fixed,
        terms,
    };
    let text = repaired_text(alloc, text, &kept)?;
    match book_of(alloc, text) {
        Ok(read) => made(alloc, book, published, terms, fixed, read),
        Err(why) => Err(why),
    }
}
