//! Runs over memory, and how they end.

ghost use Rattle.std.specs.Prelude.{IfOk, IfSome};
ghost use Rattle.roster_model.specs.Answer.{IsAnswer, records_of};
ghost use Rattle.roster_values.specs.View.{command_of};

use roster_book::{Command, Watched};
use roster_cli_run::{Status, has_answer, one_answer, run};
use roster_combine::{Open, all_open_is_legal, has_best, one_best};
use roster_legal::{
    has_locks, has_verdicts, one_first_broken, one_list_of_locks, one_list_of_verdicts,
    part_of_legal_is_legal,
};
use roster_problem::duties_in_order;
use std::alloc::{AllocError, Global};
use std::sync::Wait;
use std::test::Fail;
use std::thread::Threads;

pub const BOOK: &[u8] =
    b"period,2024-03\nbase,BAS,UTC0\ncrew,A,BAS,0,0,0\ncrew,B,BAS,0,0,0\npairing,P1,BAS,100\nduty,Q1,P,P1,BAS,2024-03-04T06:00Z,2024-03-04T14:00Z\n";

pub const REPORT: &[u8] =
    b"ROSTER 2024-03\nCOST 0\nCREW A 0 480 480 480 0 P1\nCREW B 0 0 0 0 0 -\nOPEN -\n";

const CHECK: &[u8] = b"CHECK 2024-03\nCOST 100\nCREW A OK\nCREW B OK\n";

/// What a run over memory writes. That its clause is proved shows that a reader and a writer over
/// memory meet all that `run` supposes of them.
fn text_of<R: Threads + Wait + Sync>(
    rt: &R,
    alloc: Global,
    command: Command,
    book: &[u8],
) -> Result<Option<Vec<u8>>, AllocError>
    ensures { IfOk result (λ text. IfSome text (λ text.
        IsAnswer (command_of command) (records_of book.now) text.items)) }
{
    let mut reader = Watched::new(book);
    let mut writer = Watched::new(Vec::new(alloc));
    match run(rt, alloc, command, 1, &mut reader, &mut writer, &Open) {
        Status::Answered | Status::Refused => {
            Ok(Some(Vec::from_slice(alloc, writer.inner().as_slice())?))
        }
        _ => Ok(None),
    }
}

#[test]
fn the_report_of_the_best_roster_is_written(rt: HostRuntime) -> Result<(), Fail> {
    let text = text_of(&rt, rt.alloc(), Command::Solve, BOOK)?.ok_or("a text")?;
    assert!(rt; text.as_slice() == REPORT);
    Ok(())
}

#[test]
fn what_a_check_says_is_written(rt: HostRuntime) -> Result<(), Fail> {
    let text = text_of(&rt, rt.alloc(), Command::Check, BOOK)?.ok_or("a text")?;
    assert!(rt; text.as_slice() == CHECK);
    Ok(())
}

#[test]
fn laws_can_be_called() {
    duties_in_order();
    one_first_broken();
    one_list_of_locks();
    has_locks();
    one_list_of_verdicts();
    has_verdicts();
    part_of_legal_is_legal();
    one_best();
    has_best();
    all_open_is_legal();
    one_answer();
    has_answer();
}

/// No other test compares outcomes by `==`, since a wrong one would take any for any.
#[test]
fn outcomes_are_told_apart(rt: HostRuntime) {
    let all = [
        Status::Answered,
        Status::Refused,
        Status::Memory,
        Status::ReadFailed,
        Status::WriteFailed,
    ];
    for (i, first) in all.iter().enumerate() {
        for (j, second) in all.iter().enumerate() {
            assert!(rt; (first == second) == (i == j));
        }
    }
}
