//! Small problems.

/// One person and two pairings with a minute too little between them: no line has both.
pub(crate) const ONE_OF_TWO: &[u8] =
    b"period,2024-03\nbase,BAS,UTC0\ncrew,A,BAS,0,0,0\npairing,P1,BAS,100\n\
      duty,Q1,P,P1,BAS,2024-03-04T06:00Z,2024-03-04T14:00Z\npairing,P2,BAS,100\n\
      duty,Q2,P,P2,BAS,2024-03-05T01:59Z,2024-03-05T10:00Z\n";

/// Two persons and one pairing, which costs as much with either as open.
pub(crate) const ALL_ALIKE: &[u8] =
    b"period,2024-03\nbase,BAS,UTC0\ncrew,A,BAS,0,0,0\ncrew,B,BAS,0,0,0\npairing,P1,BAS,5\n\
      duty,Q1,P,P1,BAS,2024-03-04T06:00Z,2024-03-04T14:00Z\ncost,A,P1,5\ncost,B,P1,5\n";

/// Five persons, and on each of three days five pairings at one time. Flight can hardly be shared out
/// equally, and each minute off its target costs 1. Each person has 216 legal sets.
pub(crate) const EQUAL_SHARES: &[u8] = b"period,2024-03
weight,1
base,BAS,UTC0
crew,A,BAS,381,0,0
crew,B,BAS,380,0,0
crew,C,BAS,380,0,0
crew,D,BAS,380,0,0
crew,E,BAS,380,0,0
pairing,P1,BAS,999
duty,Q1,P,P1,BAS,2024-03-04T06:00Z,2024-03-04T14:00Z
sector,Q1,O,2024-03-04T06:00Z,2024-03-04T07:15Z
pairing,P2,BAS,999
duty,Q2,P,P2,BAS,2024-03-04T06:00Z,2024-03-04T14:00Z
sector,Q2,O,2024-03-04T06:00Z,2024-03-04T07:24Z
pairing,P3,BAS,999
duty,Q3,P,P3,BAS,2024-03-04T06:00Z,2024-03-04T14:00Z
sector,Q3,O,2024-03-04T06:00Z,2024-03-04T07:22Z
pairing,P4,BAS,999
duty,Q4,P,P4,BAS,2024-03-04T06:00Z,2024-03-04T14:00Z
sector,Q4,O,2024-03-04T06:00Z,2024-03-04T08:33Z
pairing,P5,BAS,999
duty,Q5,P,P5,BAS,2024-03-04T06:00Z,2024-03-04T14:00Z
sector,Q5,O,2024-03-04T06:00Z,2024-03-04T07:44Z
pairing,P6,BAS,999
duty,Q6,P,P6,BAS,2024-03-05T06:00Z,2024-03-05T14:00Z
sector,Q6,O,2024-03-05T06:00Z,2024-03-05T08:19Z
pairing,P7,BAS,999
duty,Q7,P,P7,BAS,2024-03-05T06:00Z,2024-03-05T14:00Z
sector,Q7,O,2024-03-05T06:00Z,2024-03-05T08:05Z
pairing,P8,BAS,999
duty,Q8,P,P8,BAS,2024-03-05T06:00Z,2024-03-05T14:00Z
sector,Q8,O,2024-03-05T06:00Z,2024-03-05T07:55Z
pairing,P9,BAS,999
duty,Q9,P,P9,BAS,2024-03-05T06:00Z,2024-03-05T14:00Z
sector,Q9,O,2024-03-05T06:00Z,2024-03-05T07:10Z
pairing,P10,BAS,999
duty,Q10,P,P10,BAS,2024-03-05T06:00Z,2024-03-05T14:00Z
sector,Q10,O,2024-03-05T06:00Z,2024-03-05T07:41Z
pairing,P11,BAS,999
duty,Q11,P,P11,BAS,2024-03-06T06:00Z,2024-03-06T14:00Z
sector,Q11,O,2024-03-06T06:00Z,2024-03-06T08:51Z
pairing,P12,BAS,999
duty,Q12,P,P12,BAS,2024-03-06T06:00Z,2024-03-06T14:00Z
sector,Q12,O,2024-03-06T06:00Z,2024-03-06T08:41Z
pairing,P13,BAS,999
duty,Q13,P,P13,BAS,2024-03-06T06:00Z,2024-03-06T14:00Z
sector,Q13,O,2024-03-06T06:00Z,2024-03-06T09:11Z
pairing,P14,BAS,999
duty,Q14,P,P14,BAS,2024-03-06T06:00Z,2024-03-06T14:00Z
sector,Q14,O,2024-03-06T06:00Z,2024-03-06T08:36Z
pairing,P15,BAS,999
duty,Q15,P,P15,BAS,2024-03-06T06:00Z,2024-03-06T14:00Z
sector,Q15,O,2024-03-06T06:00Z,2024-03-06T08:54Z
";

/// Who flies them in the best roster, which costs 4.
pub(crate) const AS_EQUAL: &[u16] = &[0, 1, 2, 3, 4, 2, 1, 0, 3, 4, 1, 2, 0, 3, 4];
