//! `roster-desk`: a planner's companion to `roster`.
//!
//! - `disk`: the files of the process, and its standard input
//! - `inputs`: what the paths of the command line hold
//! - `tables`: the files of a folder of tables
//! - `carried`: what is carried into the next month
//! - `watching`: what is told of a plan while it is made
//! - `months`: the commands that write a book, or tables of one
//! - `ending`: how a run ends
//!
//! `main` hands the words to `asked` of `roster_desk_program`, and the line of a plan to its `program`; for
//! other lines it reads the book and the reports whole and hands them to `roster_desk_answers`.
#![tactic(auto)]

mod carried;
mod disk;
mod ending;
mod inputs;
mod months;
mod tables;
mod watching;

use disk::Disk;
use ending::{ended, inputs_shared, tell_text, unread_input, untold_ended};
use inputs::{read_book_at, read_inputs, read_report_at, shares_input};
use months::{answer_book, answer_carry, answer_repair};
use roster_desk_answers::{show, tell, tell_assigns};
use roster_desk_arguments::{Line, PageLine, PlanLine, TellLine};
use roster_desk_program::{Files, asked, program, unread_words};
use roster_watched::Watched;
use std::io::IsTerminal;
use std::process::ExitCode;
use std::thread::Threads;
use std::{env, io};
use watching::Companion;

fn main(rt: HostRuntime) -> ExitCode {
    let mut errors = Watched::new(rt.stderr());
    let words = match words(&rt) {
        Ok(words) => words,
        Err(error) => return unread_words(&error, &mut errors),
    };
    let mut writer = Watched::new(io::writer(&rt));
    match asked(rt.alloc(), words.as_slice(), &mut writer, &mut errors) {
        Ok(line) => answer(&rt, &rt, &line),
        Err(code) => code,
    }
}

/// The words of the command line, of which the first is the program's name.
fn words<R: env::Env + AllocGlobal>(rt: &R) -> io::Result<Vec<String>> {
    Ok(env::args(rt)?.collect(rt.alloc())?)
}

/// Answers the line.
fn answer<T: Threads + Sync>(rt: &HostRuntime, threads: &T, line: &Line<'_>) -> ExitCode {
    match line {
        Line::Plan(plan) => answer_plan(rt, threads, plan),
        Line::Tell(tell) => answer_tell(rt, tell),
        Line::Assigns(path) => answer_assigns(rt, path),
        Line::Page(page) => answer_page(rt, page),
        Line::Repair(repair) => answer_repair(rt, repair),
        Line::Book(book) => answer_book(rt, book),
        Line::Carry(carry) => answer_carry(rt, carry),
    }
}

/// Plans the book of the line.
fn answer_plan<T: Threads + Sync>(rt: &HostRuntime, threads: &T, line: &PlanLine<'_>) -> ExitCode {
    let is_told = line.progress || rt.stderr().is_terminal();
    program(
        threads,
        rt.alloc(),
        line,
        &mut Files::new(Disk::new(rt)),
        &mut Watched::new(io::writer(rt)),
        &mut Watched::new(rt.stderr()),
        &mut Companion::new(rt, is_told),
    )
}

/// Tells of a roster.
fn answer_tell(rt: &HostRuntime, line: &TellLine<'_>) -> ExitCode {
    if shares_input(line) {
        return inputs_shared(rt);
    }
    let inputs = match read_inputs(rt, line) {
        Ok(inputs) => inputs,
        Err(fault) => return unread_input(rt, fault),
    };
    let mut writer = Watched::new(io::writer(rt));
    match tell(rt.alloc(), line.question, &inputs, &mut writer) {
        Ok(noted) => {
            tell_text(rt, noted.notes.as_slice());
            ended(rt, noted.status)
        }
        Err(untold) => untold_ended(rt, &untold),
    }
}

/// Writes the `assign` records of the report at the path.
fn answer_assigns(rt: &HostRuntime, path: &str) -> ExitCode {
    let report = match read_report_at(rt, path) {
        Ok(report) => report,
        Err(fault) => return unread_input(rt, fault),
    };
    let mut writer = Watched::new(io::writer(rt));
    match tell_assigns(rt.alloc(), path, report.as_slice(), &mut writer) {
        Ok(status) => ended(rt, status),
        Err(untold) => untold_ended(rt, &untold),
    }
}

/// Tells of the records of a book.
fn answer_page(rt: &HostRuntime, line: &PageLine<'_>) -> ExitCode {
    let book = match read_book_at(rt, line.book) {
        Ok(book) => book,
        Err(fault) => return unread_input(rt, fault),
    };
    let mut writer = Watched::new(io::writer(rt));
    match show(rt.alloc(), line.page, book.as_slice(), &mut writer) {
        Ok(status) => ended(rt, status),
        Err(untold) => untold_ended(rt, &untold),
    }
}
