//! What workers do in a search that is replayed.

ghost use Rattle.std.specs.Prelude.{◌≡◌, ◌++◌, ◌∷◌, [], OnOk, length, map};
ghost use Rattle.roster_values.specs.View.{step_of};

use std::alloc::{AllocError, Global};
use std::marker::Model;

/// What a worker does in a search that is replayed. A book has workers from 0 to 63, and other numbers from
/// 0 to 1000000.
#[derive(Clone, Copy, PartialEq, Eq)]
pub enum Step {
    /// Takes a part of the search from the list of those that wait.
    Take {
        /// The worker.
        worker: usize,
        /// Where the part stands in the list, from 0.
        place: usize,
    },
    /// Gives half of its part to the list.
    Halve {
        /// The worker.
        worker: usize,
    },
    /// Goes on to the next person, if its part has one line.
    Descend {
        /// The worker.
        worker: usize,
    },
    /// Gives its part back to the list.
    Back {
        /// The worker.
        worker: usize,
    },
    /// Searches its part.
    Search {
        /// The worker.
        worker: usize,
        /// It looks at the incumbent at each node whose number this divides, and never if it is 0.
        every: usize,
    },
}

/// Steps in the order of their records. Contracts see them as a list.
#[derive(Drop)]
pub struct Steps {
    steps: Vec<Step>,
}

impl Model for Steps {
    ghost use Rattle.std.specs.Prelude.{List, map};
    ghost use Rattle.roster_model.specs.records.Step.{Step as Entry};
    ghost use Rattle.roster_values.specs.View.{step_of};

    ghost Value = { List Entry };

    ghost view = { λ s. map step_of s.steps.items };
}

impl Steps {
    /// No steps.
    pub fn none(alloc: Global) -> Steps
        ensures { result ≡ [] }
    {
        Steps {
            steps: Vec::new(alloc),
        }
    }

    /// The steps in the vector.
    pub fn new(steps: Vec<Step>) -> Steps
        ensures { result ≡ map step_of steps.items }
    {
        Steps { steps }
    }

    /// The steps in order.
    pub fn as_slice(&self) -> &[Step]
        ensures { map step_of result.now ≡ self.now }
    {
        &self.steps
    }

    /// How many they are.
    pub fn len(&self) -> usize
        ensures { result ≡ length self.now }
    {
        self.steps.len()
    }

    /// Puts a step behind the others.
    pub fn push(&mut self, step: Step) -> Result<(), AllocError>
        ensures { OnOk result (self.new ≡ self.old ++ step_of step ∷ []) }
    {
        self.steps.push(step)?;
        Ok(())
    }

    /// Gives the vector back.
    pub fn into_vec(self) -> Vec<Step>
        ensures { map step_of result.items ≡ self }
    {
        self.steps
    }
}
