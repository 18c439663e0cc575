//! Command lines that ask for nothing.

use roster_desk_arguments::Line;
use roster_desk_program::{asked, unread_words};
use roster_watched::Watched;
use std::alloc::{AllocError, Global};
use std::io;
use std::process::{Abort, ExitCode};
use std::test::Fail;

fn words_of(alloc: Global, texts: &[&str]) -> Result<Vec<String>, AllocError> {
    let mut words = Vec::new(alloc);
    for text in texts {
        words.push(String::from_str(alloc, text)?)?;
    }
    Ok(words)
}

/// These words ask for nothing and end with this status, and something is told to just one of both writers:
/// to standard error if they are refused.
fn refused<R: Abort + AllocGlobal>(rt: &R, texts: &[&str], status: u8) -> Result<(), Fail> {
    let words = words_of(rt.alloc(), texts)?;
    let mut writer = Watched::new(Vec::new(rt.alloc()));
    let mut errors = Watched::new(Vec::new(rt.alloc()));
    match asked(rt.alloc(), words.as_slice(), &mut writer, &mut errors) {
        Ok(_line) => return Err(Fail::new("a line")),
        Err(code) => assert!(rt; code == ExitCode::from(status)),
    }
    assert!(rt; writer.inner().is_empty() == (status == 2));
    assert!(rt; errors.inner().is_empty() == (status == 0));
    assert!(rt; writer.flushed() == (status == 0));
    Ok(())
}

#[test]
fn help_goes_to_standard_output(rt: HostRuntime) -> Result<(), Fail> {
    refused(&rt, &["roster-desk", "--help"], 0)?;
    refused(&rt, &["roster-desk", "plan", "--help"], 0)
}

#[test]
fn what_is_wrong_goes_to_standard_error(rt: HostRuntime) -> Result<(), Fail> {
    refused(&rt, &["roster-desk"], 2)?;
    refused(&rt, &["roster-desk", "fly"], 2)?;
    refused(&rt, &["roster-desk", "plan", "--effort", "10", "book"], 2)
}

#[test]
fn a_plan_is_asked_for(rt: HostRuntime) -> Result<(), Fail> {
    let words = words_of(rt.alloc(), &["roster-desk", "plan", "book"])?;
    let mut writer = Watched::new(Vec::new(rt.alloc()));
    let mut errors = Watched::new(Vec::new(rt.alloc()));
    match asked(rt.alloc(), words.as_slice(), &mut writer, &mut errors) {
        Ok(Line::Plan(plan)) => assert!(rt; plan.book == "book"),
        _ => return Err(Fail::new("another line")),
    }
    Ok(())
}

#[test]
fn words_that_cannot_be_had_are_told(rt: HostRuntime) {
    let mut errors = Watched::new(Vec::new(rt.alloc()));
    let error = io::Error::from(io::ErrorKind::InvalidData);
    assert!(rt; unread_words(&error, &mut errors) == ExitCode::from(2));
    let error = io::Error::from(io::ErrorKind::OutOfMemory);
    assert!(rt; unread_words(&error, &mut errors) == ExitCode::from(3));
    let told = b"error: a word of the command line is not UTF-8\nerror: memory\n";
    assert!(rt; errors.inner().as_slice() == told.as_slice());
}
