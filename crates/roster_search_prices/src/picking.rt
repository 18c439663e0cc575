//! Some of a person's lines, as a tree of their own.

use roster_model::limits::MOST_PAIRINGS;
use roster_search_regions::{Choice, ChoiceList, PersonLines};
use std::alloc::{AllocError, Global};

/// Writes some of the choices that it is shown, with those on the way to them.
#[derive(Drop)]
struct Picker {
    picked: Vec<Choice>,
    // By depth: the last pairings on the way to the choice that was shown last.
    path: Vec<u16>,
    // How many of them are on the way to what was written last.
    shared: usize,
}

impl Picker {
    /// Nothing is picked yet.
    fn new(alloc: Global) -> Result<Picker, AllocError> {
        Ok(Picker {
            picked: Vec::new(alloc),
            path: vec![in alloc; 0; MOST_PAIRINGS]?,
            shared: 0,
        })
    }

    /// Goes on to the next choice.
    #[inline]
    fn pass(&mut self, choice: &Choice) {
        let above = usize::from(choice.depth.saturating_sub(1));
        if choice.depth > 0 && above < self.path.len() {
            self.path[above] = choice.last;
        }
        if above < self.shared {
            self.shared = above;
        }
    }

    /// Writes the choice, and what is missing on the way to it.
    fn pick(&mut self, choice: &Choice) -> Result<(), AllocError> {
        let depth = usize::from(choice.depth);
        for at in self.shared..depth.saturating_sub(1) {
            if at < self.path.len() {
                self.picked.push(Choice {
                    extra: 0,
                    depth: (at % 65_536) as u16 + 1,
                    last: self.path[at],
                    live: false,
                })?;
            }
        }
        self.picked.push(*choice)?;
        self.shared = depth;
        Ok(())
    }
}

/// The lines whose value, which stands at the place of their choice, is at most so much.
pub(crate) fn lines_within(
    alloc: Global,
    choices: &PersonLines<'_>,
    values: &[i64],
    most: i64,
) -> Result<Vec<Choice>, AllocError> {
    match choices.rows() {
        Some(rows) => list_within(alloc, rows, values, most),
        None => list_within(alloc, &choices.written(), values, most),
    }
}

/// `lines_within`, of a list.
fn list_within<L: ChoiceList>(
    alloc: Global,
    choices: &L,
    values: &[i64],
    most: i64,
) -> Result<Vec<Choice>, AllocError> {
    let mut picker = Picker::new(alloc)?;
    for i in 0..choices.count() {
        let choice = choices.choice(i);
        picker.pass(&choice);
        if choice.live && i < values.len() && values[i] <= most {
            picker.pick(&choice)?;
        }
    }
    Ok(picker.picked)
}

/// One line in so many, as if drawn at random, and the first one.
pub(crate) fn sample(
    alloc: Global,
    choices: &PersonLines<'_>,
    of: usize,
) -> Result<Vec<Choice>, AllocError> {
    match choices.rows() {
        Some(rows) => sample_of(alloc, rows, of),
        None => sample_of(alloc, &choices.written(), of),
    }
}

/// `sample`, of a list.
fn sample_of<L: ChoiceList>(
    alloc: Global,
    choices: &L,
    of: usize,
) -> Result<Vec<Choice>, AllocError> {
    let mut picker = Picker::new(alloc)?;
    for i in 0..choices.count() {
        let choice = choices.choice(i);
        picker.pass(&choice);
        if choice.live && is_drawn(i, of) {
            picker.pick(&choice)?;
        }
    }
    Ok(picker.picked)
}

/// Whether number `i` is one of those that are drawn. Multiples of a number near the golden section of 2^16
/// spread evenly over the rests.
fn is_drawn(i: usize, of: usize) -> bool {
    i == 0 || i.wrapping_mul(40_503) % 65_536 < 65_536 / of.max(1)
}
