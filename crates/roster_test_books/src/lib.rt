//! Books that several crates of tests ask about, the problem of a book, and sets of its pairings.
#![tactic(auto)]

ghost use Rattle.std.specs.Prelude.{◌<◌, All, IfSome, length};

use roster_book::{BookFault, Command, Problem, Set, Watched, read_book};
use std::alloc::Global;

/// Six persons, and on each of two days five pairings at one time. Only P1 with A costs anything. Each
/// person has 36 legal sets.
pub const TWO_DAYS: &[u8] = b"period,2024-03
base,BAS,UTC0
crew,A,BAS,0,0,0
crew,B,BAS,0,0,0
crew,C,BAS,0,0,0
crew,D,BAS,0,0,0
crew,E,BAS,0,0,0
crew,F,BAS,0,0,0
pairing,P1,BAS,3
duty,Q1,P,P1,BAS,2024-03-04T06:00Z,2024-03-04T14:00Z
pairing,P2,BAS,3
duty,Q2,P,P2,BAS,2024-03-04T06:00Z,2024-03-04T14:00Z
pairing,P3,BAS,3
duty,Q3,P,P3,BAS,2024-03-04T06:00Z,2024-03-04T14:00Z
pairing,P4,BAS,3
duty,Q4,P,P4,BAS,2024-03-04T06:00Z,2024-03-04T14:00Z
pairing,P5,BAS,3
duty,Q5,P,P5,BAS,2024-03-04T06:00Z,2024-03-04T14:00Z
pairing,P6,BAS,3
duty,Q6,P,P6,BAS,2024-03-05T06:00Z,2024-03-05T14:00Z
pairing,P7,BAS,3
duty,Q7,P,P7,BAS,2024-03-05T06:00Z,2024-03-05T14:00Z
pairing,P8,BAS,3
duty,Q8,P,P8,BAS,2024-03-05T06:00Z,2024-03-05T14:00Z
pairing,P9,BAS,3
duty,Q9,P,P9,BAS,2024-03-05T06:00Z,2024-03-05T14:00Z
pairing,P10,BAS,3
duty,Q10,P,P10,BAS,2024-03-05T06:00Z,2024-03-05T14:00Z
cost,A,P1,3
";

/// Who flies them in the best roster, which costs 0.
pub const BEST: &[u16] = &[1, 0, 2, 3, 4, 0, 1, 2, 3, 4];

/// The problem of a book.
pub fn problem_of(alloc: Global, book: &[u8]) -> Result<Problem, BookFault> {
    let mut reader = Watched::new(book);
    Ok(read_book(alloc, &mut reader, Command::Solve)?.problem)
}

/// The pairings at whose places the list has the number 0.
#[tactic(auto, using(roster_model::proofs::SetLemmas::places_of_number))]
pub fn set_of(problem: &Problem, places: &[u16]) -> Option<Set>
    ensures { IfSome result (λ set. All (λ p. p < length problem.now.pairings) set) }
{
    if places.len() != problem.pairings().len() {
        return None;
    }
    Some(Set::of_places(places, 0))
}
