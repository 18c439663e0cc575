//! `roster-oracle`: the plain answer to a small book, to be read beside the definitions, and compared with
//! what `roster` says.
//!
//! - `answering`: `answer`, which tries all rosters of a small book
//!
//! `main` takes the command from the command line of `roster`, and the book from standard input.
#![tactic(auto)]

mod answering;

use answering::answer;
use roster_cli_arguments::read_line;
use std::io::{Read, Write};
use std::process::ExitCode;
use std::{env, io};

/// Writes the answer. The status is 1 if there is none: the command line is refused, memory ran out, or a
/// device failed.
fn main(rt: HostRuntime) -> ExitCode {
    match answered(&rt) {
        Some(()) => ExitCode::SUCCESS,
        None => ExitCode::FAILURE,
    }
}

/// Writes the answer to what the command line and standard input ask.
fn answered(rt: &HostRuntime) -> Option<()> {
    let words = words(rt).ok()?;
    let (command, _) = read_line(rt.alloc(), words.as_slice()).ok()?;
    let mut bytes = Vec::new(rt.alloc());
    rt.reader().read_to_end(&mut bytes).ok()?;
    let text = answer(rt.alloc(), command, bytes.as_slice()).ok()?;
    let mut writer = io::writer(rt);
    writer.write_all(text.as_slice()).ok()?;
    writer.flush().ok()
}

/// The words of the command line, of which the first is the program's name.
fn words<R: env::Env + AllocGlobal>(rt: &R) -> io::Result<Vec<String>> {
    Ok(env::args(rt)?.collect(rt.alloc())?)
}
