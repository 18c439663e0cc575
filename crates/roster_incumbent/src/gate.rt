//! Where the workers of a search can be met.

/// How far a worker is with a part of the search.
#[derive(Clone, Copy, PartialEq, Eq)]
pub enum Point {
    /// Inside the search of a base, before each question for a roster that costs less. Who only helps to
    /// search the base doesn't come there.
    Base,
    /// A part is in hand, and is about to be searched.
    Ready,
    /// Inside a search, before each look at the best roster so far.
    Look,
    /// The part is finished.
    Finished,
}

/// Is told how far each worker is. It may keep a worker waiting: no lock is held when it is passed.
pub trait Gate {
    /// The worker with this number, from 0, has come to the point.
    fn pass(&self, worker: usize, point: Point);
}

/// A gate that does nothing.
#[derive(Clone, Copy, Drop)]
pub struct Open;

impl Gate for Open {
    fn pass(&self, _worker: usize, _point: Point) {}
}
