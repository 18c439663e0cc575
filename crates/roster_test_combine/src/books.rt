//! Small books, and whether a roster is the wanted one.

use roster_combine::Solved;

/// One person, and two pairings on different days: four legal sets.
pub const ONE_PERSON: &[u8] = b"period,2024-03
base,BAS,UTC0
crew,A,BAS,0,0,0
pairing,P1,BAS,3
duty,Q1,P,P1,BAS,2024-03-04T06:00Z,2024-03-04T14:00Z
pairing,P2,BAS,3
duty,Q2,P,P2,BAS,2024-03-06T06:00Z,2024-03-06T14:00Z
";

/// No persons, and nothing to fly.
pub const NOBODY: &[u8] = b"period,2024-03\n";

/// Two bases with a person and a pairing each.
pub const TWO_BASES: &[u8] = b"period,2024-03
base,BAS,UTC0
base,CAS,UTC0
crew,A,BAS,0,0,0
crew,B,CAS,0,0,0
pairing,P1,BAS,3
duty,Q1,P,P1,BAS,2024-03-04T06:00Z,2024-03-04T14:00Z
pairing,P2,CAS,3
duty,Q2,P,P2,CAS,2024-03-04T06:00Z,2024-03-04T14:00Z
";

/// Whether the roster has these places and costs 0, and all was searched again so often.
pub fn is(solved: &Solved, places: &[u16], fallbacks: usize) -> bool {
    solved.roster.places.as_slice() == places
        && solved.roster.cost == 0
        && solved.fallbacks == fallbacks
}
