//! A law of the definition of an answer. It has no code.

ghost use Rattle.roster_desk_run.specs.Run.{SaysBest, SaysBestSoFar};

/// An answer that begins with `ROSTER` is the report of the book's best roster, which has no fault: no
/// line of a fault and no plan begins so. What is kept of a plan before it ends is the same then.
pub fn first_word_says_best()
    ensures answer { SaysBest }
    ensures kept { SaysBestSoFar }
{}
