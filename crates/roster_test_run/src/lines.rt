//! Command lines, whose good rows no book of `data/` reaches alone.

use roster_cli_arguments::{LineFault, read_line};
use roster_values::Command;
use std::alloc::Global;
use std::test::Fail;

/// The command that the words behind the program's name ask for, and its workers; none if they are refused.
fn asked(alloc: Global, words: &[&str]) -> Result<Option<(Command, usize)>, Fail> {
    match read_line(alloc, words) {
        Ok(line) => Ok(Some(line)),
        Err(LineFault::Refused(_)) => Ok(None),
        Err(LineFault::Memory) => Err("memory")?,
    }
}

#[test]
fn lines_that_ask_for_something(rt: HostRuntime) -> Result<(), Fail> {
    let alloc = rt.alloc();
    assert!(rt; asked(alloc, &["roster", "solve"])? == Some((Command::Solve, 1)));
    let most = asked(alloc, &["roster", "solve", "--workers", "64"])?;
    assert!(rt; most == Some((Command::Solve, 64)));
    let spelled = asked(alloc, &["roster", "solve", "--workers=01"])?;
    assert!(rt; spelled == Some((Command::Solve, 1)));
    assert!(rt; asked(alloc, &["roster", "check"])? == Some((Command::Check, 1)));
    assert!(rt; asked(alloc, &["roster", "replay"])? == Some((Command::Replay, 1)));
    Ok(())
}

#[test]
fn lines_that_are_refused(rt: HostRuntime) -> Result<(), Fail> {
    let alloc = rt.alloc();
    assert!(rt; asked(alloc, &["roster"])?.is_none());
    assert!(rt; asked(alloc, &["roster", "plan"])?.is_none());
    assert!(rt; asked(alloc, &["roster", "solve", "book.csv"])?.is_none());
    assert!(rt; asked(alloc, &["roster", "solve", "--workers", "0"])?.is_none());
    assert!(rt; asked(alloc, &["roster", "solve", "--workers", "65"])?.is_none());
    assert!(rt; asked(alloc, &["roster", "check", "--workers", "2"])?.is_none());
    Ok(())
}
