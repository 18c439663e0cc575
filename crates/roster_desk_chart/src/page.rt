//! The page.

ghost use Rattle.std.specs.Prelude.{◌≡◌, ◌<◌, IfSome, length};

use crate::axis::Axis;
use crate::meters::push_names;
use crate::open::{is_open, open_count, push_reasons, push_row};
use crate::persons::{Words, push_person};
use crate::style::{SCRIPT, STYLE};
use roster_cost::roster_cost;
use roster_desk_words::{Teller, push_all};
use roster_model::limits::MOST_BASES;
use roster_problem::Problem;
use std::alloc::{AllocError, Global};

/// What the signs of the page mean.
const KEY: &[u8] =
    b"<p class=\"key\"><span><i style=\"--h:137\"></i>duty of a pairing, in its colour</span>\
      <span><u class=\"p\" style=\"--h:137\"></u>from its first report to its last release</span>\
      <span><i class=\"f\"></i>fixed duty</span><span><i class=\"x\"></i>breaks the rule that is told</span>\
      <span><b>leave</b></span><span><u></u>days off</span>\
      <span><u class=\"r\"></u>recurrent rest</span></p>\n";

/// What the meters mean, and how the page is used.
const HELP: &[u8] =
    b"<p>Meters: duty in 7, 14 and 28 days, flight in 28 days (F), in the calendar year (Y) and in twelve \
      months (12). Days are local days of the base; a dark one has a change of clocks. Point at a bar, tap \
      it, or go to it with Tab and the arrow keys.</p>\n";

/// The person with whom a base's section begins, if anybody is at home there.
fn first_at(problem: &Problem, base: usize) -> Option<usize> {
    problem
        .persons()
        .iter()
        .position(|person| person.base == base)
}

/// Appends the head of the page.
fn push_head(alloc: Global, out: &mut Vec<u8>, problem: &Problem) -> Result<(), AllocError> {
    let (year, month) = (problem.period().year(), problem.period().month());
    push_all(
        out,
        &[
            b"<!DOCTYPE html>\n<html lang=\"en\"><head><meta charset=\"utf-8\">",
            b"<meta name=\"viewport\" content=\"width=device-width,initial-scale=1\">",
        ],
    )?;
    let title = format!(in alloc; "<title>Roster {year}-{month:02}</title>\n<style>")?;
    push_all(out, &[title.as_bytes(), STYLE.as_bytes()])?;
    for base in 0..MOST_BASES {
        push_ground(alloc, out, problem, base)?;
    }
    out.extend_from_slice(b"</style></head>\n<body>\n")
}

/// Appends the style of the rows of a base.
fn push_ground(
    alloc: Global,
    out: &mut Vec<u8>,
    problem: &Problem,
    base: usize,
) -> Result<(), AllocError> {
    let Some(k) = place_of(problem, base) else {
        return Ok(());
    };
    let axis = Axis::of_base(problem, base, problem.days_of(k));
    let begin = format!(in alloc; "#b{base} tbody .t{{")?;
    out.extend_from_slice(begin.as_bytes())?;
    axis.push_ground(alloc, out)?;
    out.extend_from_slice(b"}\n")
}

/// Appends what stands above the sections.
fn push_summary(
    alloc: Global,
    out: &mut Vec<u8>,
    problem: &Problem,
    places: &[u16],
) -> Result<(), AllocError>
    requires { length places.now ≡ length problem.now.pairings }
{
    let (year, month) = (problem.period().year(), problem.period().month());
    let cost = roster_cost(problem, places);
    let persons = problem.persons().len();
    let pairings = problem.pairings().len();
    let open = open_count(problem, places);
    let text = format!(in alloc;
        "<h1>Roster {year}-{month:02}</h1>\n<p>Cost {cost}. {persons} persons, {pairings} pairings, \
         of which {open} are open.</p>\n"
    )?;
    out.extend_from_slice(text.as_bytes())?;
    out.extend_from_slice(KEY)?;
    out.extend_from_slice(HELP)?;
    let say: &[u8] =
        b"<output class=\"say\" id=\"say\">What is under the pointer is told here.</output>\n";
    out.extend_from_slice(say)
}

/// Appends the head of a base's table.
fn push_table_head(
    alloc: Global,
    out: &mut Vec<u8>,
    axis: &Axis,
    base: usize,
    name: &[u8],
) -> Result<(), AllocError> {
    let begin = format!(in alloc; "\n<div class=\"wide\"><table id=\"b{base}\">")?;
    push_all(out, &[b"<h2>", name, b"</h2>", begin.as_bytes()])?;
    push_all(out, &[b"<thead><tr><th class=\"n\" scope=\"col\">", name])?;
    out.extend_from_slice(b"</th><th class=\"m\" scope=\"col\">")?;
    push_names(out)?;
    out.extend_from_slice(b"</th><th scope=\"col\">")?;
    axis.push_days(alloc, out)?;
    out.extend_from_slice(b"</th></tr></thead>\n<tbody>\n")
}

/// Appends the rows of a base: its persons, and its open pairings.
fn push_rows(
    alloc: Global,
    out: &mut Vec<u8>,
    axis: &Axis,
    problem: &Problem,
    words: Words<'_>,
    places: &[u16],
    base: usize,
) -> Result<(), AllocError>
    requires { length places.now ≡ length problem.now.pairings }
{
    for k in 0..problem.persons().len() {
        if problem.person(k).base == base {
            push_person(alloc, out, axis, problem, words, places, k)?;
        }
    }
    for p in 0..problem.pairings().len() {
        if problem.pairing(p).base == base && is_open(problem, places, p) {
            push_row(alloc, out, axis, problem, p)?;
        }
    }
    Ok(())
}

/// Appends why the open pairings of a base are open.
fn push_why(
    alloc: Global,
    out: &mut Vec<u8>,
    problem: &Problem,
    words: Words<'_>,
    places: &[u16],
    base: usize,
) -> Result<(), AllocError>
    requires { length places.now ≡ length problem.now.pairings }
{
    let teller = Teller::new(alloc, problem, words.zones, places);
    for p in 0..problem.pairings().len() {
        if problem.pairing(p).base == base && is_open(problem, places, p) {
            push_reasons(alloc, out, problem, places, &teller, p)?;
        }
    }
    Ok(())
}

/// The person with whom the base's section begins.
fn place_of(problem: &Problem, base: usize) -> Option<usize>
    ensures { IfSome result (λ k. k < length problem.now.persons) }
{
    let k = first_at(problem, base)?;
    if k < problem.persons().len() {
        Some(k)
    } else {
        None
    }
}

/// Appends the section of a base, if anybody is at home there.
fn push_base(
    alloc: Global,
    out: &mut Vec<u8>,
    problem: &Problem,
    words: Words<'_>,
    places: &[u16],
    base: usize,
) -> Result<(), AllocError>
    requires { length places.now ≡ length problem.now.pairings }
{
    let Some(k) = place_of(problem, base) else {
        return Ok(());
    };
    let axis = Axis::of_base(problem, base, problem.days_of(k));
    push_table_head(alloc, out, &axis, base, problem.home(k).id.as_bytes())?;
    push_rows(alloc, out, &axis, problem, words, places, base)?;
    out.extend_from_slice(b"</tbody></table></div>\n")?;
    push_why(alloc, out, problem, words, places, base)
}

/// Appends the open pairings at whose base nobody is at home.
fn push_homeless(out: &mut Vec<u8>, problem: &Problem, places: &[u16]) -> Result<(), AllocError> {
    for p in 0..problem.pairings().len() {
        let pairing = problem.pairing(p);
        if is_open(problem, places, p) && place_of(problem, pairing.base).is_none() {
            let name = pairing.id.as_bytes();
            push_all(
                out,
                &[
                    b"<p>",
                    name,
                    b" is open: nobody is at home at its base.</p>\n",
                ],
            )?;
        }
    }
    Ok(())
}

/// The page of a book's roster: for each base the days across, a row for each person, and below them the open
/// pairings and why they are open. The places are the roster, which needn't be legal, and the zones of the
/// words those of the book's bases.
pub fn chart_text(
    alloc: Global,
    problem: &Problem,
    places: &[u16],
    words: Words<'_>,
) -> Result<Vec<u8>, AllocError>
    requires { length places.now ≡ length problem.now.pairings }
{
    let mut out = Vec::new(alloc);
    push_head(alloc, &mut out, problem)?;
    push_summary(alloc, &mut out, problem, places)?;
    for base in 0..MOST_BASES {
        push_base(alloc, &mut out, problem, words, places, base)?;
    }
    push_homeless(&mut out, problem, places)?;
    push_all(
        &mut out,
        &[
            b"<script>",
            SCRIPT.as_bytes(),
            b"</script>\n</body></html>\n",
        ],
    )?;
    Ok(out)
}
