//! The lines of a person, all that are left or some that were picked.

use crate::choice::Choice;
use crate::choices::Choices;
use crate::reading::number_at;
use crate::rows::Rows;

/// Fewer lines than this are looked at sooner than threads are started: from 20,000 on, four workers took
/// 1.4 times as long as one on a month of one base.
pub const LINES_FOR_THREADS: usize = 200_000;

/// No line, and on the way to none.
const NOTHING: Choice = Choice {
    extra: 0,
    depth: 0,
    last: 0,
    live: false,
};

/// A list of choices in one place. Loops are written for any such list, so that they don't ask at each
/// choice where it stands.
pub trait ChoiceList {
    /// How many choices there are.
    fn count(&self) -> usize;

    /// The choice at a place, or past the last one that is no line.
    fn choice(&self, i: usize) -> Choice;
}

impl<'a> ChoiceList for Rows<'a> {
    #[inline]
    fn count(&self) -> usize {
        self.len()
    }

    #[inline]
    fn choice(&self, i: usize) -> Choice {
        if i < self.len() { self.at(i) } else { NOTHING }
    }
}

/// Choices that stand in a list of their own.
#[derive(Clone, Copy)]
pub struct Written<'a> {
    choices: &'a [Choice],
}

impl<'a> ChoiceList for Written<'a> {
    #[inline]
    fn count(&self) -> usize {
        self.choices.len()
    }

    #[inline]
    fn choice(&self, i: usize) -> Choice {
        if i < self.choices.len() {
            self.choices[i]
        } else {
            NOTHING
        }
    }
}

/// The lines of a person, as a tree: each choice stands behind those that it goes on from.
#[derive(Drop)]
pub enum PersonLines<'a> {
    /// All that the region has.
    All(Choices<'a>),
    /// Some of them.
    Picked(&'a [Choice]),
}

impl<'a> PersonLines<'a> {
    /// How many choices there are.
    pub fn len(&self) -> usize {
        match self {
            PersonLines::All(choices) => choices.len(),
            PersonLines::Picked(choices) => choices.len(),
        }
    }

    /// The choice at a place, or past the last one that is no line.
    pub fn at(&self, i: usize) -> Choice {
        match self {
            PersonLines::All(choices) => {
                if i < choices.len() {
                    choices.at(i)
                } else {
                    NOTHING
                }
            }
            PersonLines::Picked(choices) => {
                if i < choices.len() {
                    choices[i]
                } else {
                    NOTHING
                }
            }
        }
    }

    /// The rows of the table, if the choices stand there.
    pub fn rows(&self) -> Option<&Rows<'a>> {
        match self {
            PersonLines::All(choices) => choices.rows(),
            PersonLines::Picked(_) => None,
        }
    }

    /// The choices, if they stand in a list of their own, and else none.
    pub fn written(&self) -> Written<'_> {
        Written {
            choices: match self {
                PersonLines::All(choices) => choices.own().unwrap_or(&[]),
                PersonLines::Picked(choices) => choices,
            },
        }
    }
}

/// The value of the choice to which a walk goes on: what its line costs more than the empty one, less the
/// prices of its pairings. The sums are those of the prices on the way, by depth.
#[inline]
pub fn value_of(choice: &Choice, prices: &[i64], sums: &mut [i64]) -> i64 {
    let depth = usize::from(choice.depth);
    if depth == 0 || depth >= sums.len() {
        return choice.extra;
    }
    let price = number_at(prices, usize::from(choice.last));
    let sum = sums[depth - 1].wrapping_add(price);
    sums[depth] = sum;
    choice.extra.wrapping_sub(sum)
}
