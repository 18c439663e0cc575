//! What happens to a pool, one thing at a time.

/// An event of a pool, with the number of its worker.
#[derive(Clone, Copy, PartialEq, Eq)]
pub enum Event {
    /// The worker takes the pending span at this place, from 0; the later ones close up.
    Take(usize, usize),
    /// The worker keeps the lower half of its span; the upper half becomes the last pending one.
    Halve(usize),
    /// The worker's span of one line goes down to the next person.
    Descend(usize),
    /// The worker gives its span back: it becomes the last pending one.
    Back(usize),
    /// The worker's span is finished.
    Finish(usize),
}
