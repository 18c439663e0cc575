//! `roster`: the program.
//!
//! - `program`: from the words of the command line to the exit status, over any reader and writers
//!
//! `main` hands it those of the process.
#![tactic(auto)]

mod program;

use program::program;
use roster_combine::Open;
use roster_watched::Watched;
use std::process::ExitCode;
use std::{env, io};

fn main(rt: HostRuntime) -> ExitCode {
    program(
        &rt,
        rt.alloc(),
        words(&rt),
        &mut Watched::new(rt.reader()),
        &mut Watched::new(io::writer(&rt)),
        &mut Watched::new(rt.stderr()),
        &Open,
    )
}

/// The words of the command line, of which the first is the program's name.
fn words<R: env::Env + AllocGlobal>(rt: &R) -> io::Result<Vec<String>> {
    Ok(env::args(rt)?.collect(rt.alloc())?)
}
