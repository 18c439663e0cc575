//! Sets judged.

ghost use Rattle.std.specs.Prelude.{◌≡◌, ◌<◌, ◌↔◌, [], IfOk, IsTrue, All, length, option_map};
ghost use Rattle.roster_model.specs.Rules.{IsFirstBroken, IsLegal, IsLock};
ghost use Rattle.roster_values.specs.View.{rule_of};

use crate::listing::merge_in;
use crate::rules::first_broken_on;
use roster_problem::Problem;
use roster_values::{Rule, Set};
use std::alloc::{AllocError, Global};
use std::marker::Model;
use std::mem;

/// Judges sets of a problem one after another, in the memory of one duty list. Contracts see it as the
/// problem's tables.
#[derive(Drop)]
pub struct Judge<'a> {
    problem: &'a Problem,
    alloc: Global,
    memory: Vec<u16>,
}

impl<'a> Model for Judge<'a> {
    ghost use Rattle.std.specs.Prelude.{◌≡◌, []};
    ghost use Rattle.roster_model.specs.Problem.{Problem};

    ghost Value = { Problem };

    ghost view = { λ j. j.problem.now };

    ghost invariant = { λ j. j.memory.items ≡ [] };
}

impl<'a> Judge<'a> {
    /// A judge of this problem. It takes no memory so far.
    pub fn new(alloc: Global, problem: &'a Problem) -> Judge<'a>
        ensures { result ≡ problem.now }
    {
        Judge {
            problem,
            alloc,
            memory: Vec::new(alloc),
        }
    }

    /// The first rule that person `k` breaks with the set, if there is one. It takes memory only if
    /// the duty list is longer than those before it, or memory ran out since.
    pub fn first_broken(&mut self, k: usize, set: &Set) -> Result<Option<Rule>, AllocError>
        requires person { k < length self.old.persons }
        requires places { All (λ p. p < length self.old.pairings) set.now }
        ensures value { IfOk result
            (λ broken. IsFirstBroken self.old k set.now (option_map rule_of broken)) }
        ensures same { self.new ≡ self.old }
    {
        let problem = self.problem;
        let memory = mem::replace(&mut self.memory, Vec::new(self.alloc));
        let list = merge_in(memory, problem, k, set)?;
        let broken = first_broken_on(problem, k, set, &list);
        self.memory = list.into_memory();
        Ok(broken)
    }

    /// Whether the set is legal for person `k`: it is empty, or no rule is broken. It takes memory as
    /// `first_broken` does.
    pub fn is_legal(&mut self, k: usize, set: &Set) -> Result<bool, AllocError>
        requires person { k < length self.old.persons }
        requires places { All (λ p. p < length self.old.pairings) set.now }
        ensures value { IfOk result (λ is_legal. IsTrue is_legal ↔ IsLegal self.old k set.now) }
        ensures same { self.new ≡ self.old }
    {
        if set.is_empty() {
            return Ok(true);
        }
        Ok(self.first_broken(k, set)?.is_none())
    }
}

/// The first rule that person `k` breaks with the set, if there is one.
pub fn first_broken(
    alloc: Global,
    problem: &Problem,
    k: usize,
    set: &Set,
) -> Result<Option<Rule>, AllocError>
    requires person { k < length problem.now.persons }
    requires places { All (λ p. p < length problem.now.pairings) set.now }
    ensures { IfOk result
        (λ broken. IsFirstBroken problem.now k set.now (option_map rule_of broken)) }
{
    Judge::new(alloc, problem).first_broken(k, set)
}

/// What locks person `k`: the first rule that is broken without any pairing, if there is one.
pub fn locked(alloc: Global, problem: &Problem, k: usize) -> Result<Option<Rule>, AllocError>
    requires { k < length problem.now.persons }
    ensures { IfOk result (λ lock. IsLock problem.now k (option_map rule_of lock)) }
{
    first_broken(alloc, problem, k, &Set::empty())
}

/// Whether the set is legal for person `k`: it is empty, or no rule is broken.
pub fn is_legal(alloc: Global, problem: &Problem, k: usize, set: &Set) -> Result<bool, AllocError>
    requires person { k < length problem.now.persons }
    requires places { All (λ p. p < length problem.now.pairings) set.now }
    ensures { IfOk result (λ is_legal. IsTrue is_legal ↔ IsLegal problem.now k set.now) }
{
    Judge::new(alloc, problem).is_legal(k, set)
}
