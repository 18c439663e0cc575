//! The book in which pairings break off, as a command line says.

ghost use Rattle.std.specs.Prelude.{◌<◌, ◌≡◌, IfOk, length, option_map};
ghost use Rattle.roster_desk_made.specs.Made.{TellsFault};
ghost use Rattle.roster_desk_answers.specs.Broken.{parts_at, BreakBy, IsBreak, IsRest};
ghost use Rattle.roster_desk_answers.specs.Pages.{IsUnmade};

use crate::unmade::unmade;
use crate::untold::Untold;
use roster_desk_arguments::RepairLine;
use roster_desk_given::Unknown;
use roster_desk_made::Unmade;
use roster_desk_repair::break_off;
use roster_desk_repair_judged::{Break, Rest, is_under_way};
use roster_desk_reports::{pairing_named, person_named};
use roster_instants::{Minute, read_minute};
use roster_problem::Problem;
use std::alloc::Global;

/// What is said of words that don't tell what becomes of the rest.
const NO_REST: &str =
    "--broken wants a pairing, and who has its rest or the times of a duty that brings somebody there, \
                       as P7:BEN or P7:2024-06-12T16:00Z/2024-06-12T19:00Z";

/// What is said of a pairing that can't break off.
const NOT_UNDER_WAY: &str =
    "--broken wants a pairing that has begun at --from, and has a duty that reports later";

/// Which option may keep a fault of the code away from a repair, if one may.
fn remedy(code: u8) -> &'static str {
    match code {
        5 => "if units are too low: take a smaller --change or --notice\n",
        13 => "if somebody is under way: begin the leave at the release, or say --broken\n",
        _ => "",
    }
}

/// Why the rest has no book. An option is named that may help.
pub(crate) fn unrepaired<'a>(alloc: Global, why: Unmade) -> Untold<'a>
    requires { TellsFault why }
    ensures { IsUnmade result }
{
    let said = match &why {
        Unmade::At { code, .. } => remedy(*code),
        Unmade::Unlike | Unmade::Memory => "",
    };
    unmade(alloc, why, said)
}

/// Why there is no book in which a pairing breaks off as the words of the option say. The option is named.
fn unbroken<'a>(alloc: Global, why: Unmade, words: &str) -> Untold<'a>
    requires { TellsFault why }
    ensures { IsUnmade result }
{
    match format!(in alloc; "this book comes of --broken {words}\n") {
        Ok(said) => unmade(alloc, why, said.as_str()),
        Err(_) => Untold::Memory,
    }
}

/// The texts before the first colon and behind it, if there is one.
pub(crate) fn at_colon(text: &str) -> Option<(&str, &str)>
    ensures { option_map (λ parts. (parts.0.now, parts.1.now)) result ≡ parts_at 58 text.now }
{
    text.split_once(':')
}

/// The texts before the first slash and behind it, if there is one.
fn at_slash(text: &str) -> Option<(&str, &str)>
    ensures { option_map (λ parts. (parts.0.now, parts.1.now)) result ≡ parts_at 47 text.now }
{
    text.split_once('/')
}

/// What the words say becomes of the rest: the name of a person, or two instants.
fn rest_in<'a>(book: &Problem, words: &str) -> Result<Rest, Untold<'a>>
    ensures { IfOk result (IsRest book.now words.now) }
{
    let Some((report, release)) = at_slash(words) else {
        return match person_named(book, words.as_bytes()) {
            Some(person) => Ok(Rest::Stays { person }),
            None => Err(Untold::Unknown(Unknown::Person)),
        };
    };
    match (
        read_minute(report.as_bytes()),
        read_minute(release.as_bytes()),
    ) {
        (Some(report), Some(release)) => Ok(Rest::Positioned { report, release }),
        _ => Err(Untold::Words(NO_REST)),
    }
}

/// The pairing that breaks off at the instant, and its rest, by the words.
fn break_in<'a>(book: &Problem, at: Minute, words: &str) -> Result<Break, Untold<'a>>
    ensures is { IfOk result (IsBreak book.now at words.now) }
    ensures within { IfOk result (λ off. off.pairing < length book.now.pairings) }
{
    let Some((name, rest)) = at_colon(words) else {
        return Err(Untold::Words(NO_REST));
    };
    let Some(pairing) = pairing_named(book, name.as_bytes()) else {
        return Err(Untold::Unknown(Unknown::Pairing));
    };
    let rest = rest_in(book, rest)?;
    let off = Break { pairing, at, rest };
    if !is_under_way(book, &off) {
        return Err(Untold::Words(NOT_UNDER_WAY));
    }
    Ok(off)
}

/// The text and the tables of the book, whose bytes are the text, once each pairing that the line names
/// breaks off at the instant, one after another.
pub(crate) fn broken_off<'a>(
    alloc: Global,
    line: &RepairLine<'a>,
    at: Minute,
    text: &[u8],
    mut book: Problem,
) -> Result<(Vec<u8>, Problem), Untold<'a>>
    ensures { IfOk result (λ broken. BreakBy at book line.now.broken.items broken.1) }
{
    let mut text = Vec::from_slice(alloc, text)?;
    for words in &line.broken {
        let off = break_in(&book, at, *words)?;
        match break_off(alloc, &text, &book, &off) {
            Ok(broken) => {
                text = broken.text;
                book = broken.problem;
            }
            Err(why) => return Err(unbroken(alloc, why, *words)),
        }
    }
    Ok((text, book))
}
