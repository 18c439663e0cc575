//! What all steps of a plan are lent.

use roster_lines::Pairs;
use roster_plan_bound::Pricing;
use roster_problem::Problem;
use std::alloc::Global;

/// What all steps of a plan are lent: memory, the problem, the pairs of each person, and what looks at prices
/// need of them.
#[derive(Drop)]
pub(crate) struct Lent<'a> {
    pub(crate) alloc: Global,
    pub(crate) problem: &'a Problem,
    pub(crate) pairs: &'a [Pairs],
    pub(crate) pricing: &'a Pricing<'a>,
}
