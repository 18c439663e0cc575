//! The values of a book, as a caller of `roster_book` names them.

use roster_book::{
    Book, BookFault, Command, Duty, Leave, Pairing, Person, Problem, Sector, Step, Watched,
    read_book,
};
use roster_instants::read_minute;
use std::alloc::Global;
use std::process::Abort;

const BOOK: &[u8] = b"period,2024-03
weight,2
base,BAS,UTC0
crew,A,BAS,100,200,300
pairing,P1,BAS,40
duty,Q1,P,P1,BAS,2024-03-04T06:00Z,2024-03-04T14:00Z
sector,Q1,O,2024-03-04T07:00Z,2024-03-04T09:00Z
leave,A,2024-03-10T00:00Z,2024-03-12T00:00Z
cost,A,P1,-5
step,take,0,0
step,search,0,3
";

/// The book of the bytes.
fn book(alloc: Global) -> Result<Book, BookFault> {
    read_book(alloc, &mut Watched::new(BOOK), Command::Replay)
}

/// Checks what the book has of the person.
fn has_person(rt: &impl Abort, person: &Person) {
    assert!(rt; person.id.as_bytes() == b"A".as_slice());
    assert!(rt; (person.base, person.target, person.year) == (0, 100, 200));
    assert!(rt; (person.eleven, person.row) == (300, 4));
}

/// Checks what the book has of the pairing.
fn has_pairing(rt: &impl Abort, pairing: &Pairing) {
    assert!(rt; pairing.id.as_bytes() == b"P1".as_slice());
    assert!(rt; (pairing.base, pairing.penalty, pairing.row) == (0, 40, 5));
}

/// Checks what the book has of the sector.
fn has_sector(rt: &impl Abort, sector: &Sector) {
    assert!(rt; sector.operates);
    assert!(rt; sector.on.get() - sector.off.get() == 120);
}

/// Checks what the book has of the duty.
fn has_duty(rt: &impl Abort, duty: &Duty) {
    assert!(rt; duty.id.as_bytes() == b"Q1".as_slice());
    assert!(rt; duty.release.get() - duty.report.get() == 480);
    assert!(rt; duty.sectors.len() == 1);
    has_sector(rt, &duty.sectors[0]);
}

/// Checks what the book has of the leave.
fn has_leave(rt: &impl Abort, leave: &Leave) {
    assert!(rt; leave.person == 0);
    assert!(rt; Some(leave.from) == read_minute(b"2024-03-10T00:00Z"));
    assert!(rt; leave.to.get() - leave.from.get() == 2880);
}

/// Checks what the book has in its tables.
fn has_tables(rt: &impl Abort, problem: &Problem) {
    assert!(rt; problem.weight() == 2);
    assert!(rt; problem.persons().len() == 1 && problem.pairings().len() == 1);
    has_person(rt, problem.person(0));
    has_pairing(rt, problem.pairing(0));
    assert!(rt; problem.units(0, 0) == -5);
    assert!(rt; problem.duties().len() == 1 && problem.leaves().len() == 1);
    has_duty(rt, &problem.duties()[0]);
    has_leave(rt, &problem.leaves()[0]);
}

/// Checks what the book has in all.
fn has_all(rt: &impl Abort, book: &Book) {
    has_tables(rt, &book.problem);
    let take = Step::Take {
        worker: 0,
        place: 0,
    };
    let search = Step::Search {
        worker: 0,
        every: 3,
    };
    let steps = book.steps.as_slice();
    assert!(rt; steps.len() == 2);
    assert!(rt; steps[0] == take && steps[1] == search);
}

#[test]
fn a_book_tells_its_values(rt: HostRuntime) {
    match book(rt.alloc()) {
        Ok(book) => has_all(&rt, &book),
        Err(_) => assert!(rt; false),
    }
}
