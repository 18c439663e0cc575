//! Regions, and what makes them smaller.

ghost use Rattle.std.specs.Prelude.{◌≡◌, ◌+◌, ◌<◌, ◌≤◌, ◌≤ℤ◌, All, IfOk, MatchBool, OnOk, filter, int_le, length};
ghost use Rattle.roster_model.specs.Places.{open_number};
ghost use Rattle.roster_model.specs.Rules.{is_among};
ghost use Rattle.roster_cost.specs.Amounts.{IsWithin};
ghost use Rattle.roster_search_regions.specs.Prices.{value_of, ArePrices};
ghost use Rattle.roster_search_regions.specs.Regions.{lines_of, size_of, with_lines, Has, HasNone, HasNot, IsNarrowed};
ghost use Rattle.roster_search_regions.specs.Regions.{HasOpenAtLeast, HasOpenAtMost};
ghost use Rattle.roster_search_regions.specs.Regions.{IsRegion, IsSplit, IsUndecidedAt, IsWhollyIn};
ghost use Rattle.roster_search_regions.specs.Trees.{agrees, lacks, lines_in, AreCertain, ArePossible, HasJust, Offers};

use crate::choice::{MOST_SCALE, MOST_UNIT, MOST_VALUE};
use crate::choices::Choices;
use crate::shared::Shared;
use crate::tree::Tree;
use roster_model::limits::MOST_PAIRINGS;
use roster_problem::Problem;
use roster_values::Set;
use std::alloc::{AllocError, Global};
use std::marker::Model;

/// Some rosters: for each person the lines that are allowed, which pairings must be open and which must not,
/// and how many are open at least and at most. Costs are in parts of a cost unit, and those of a line are
/// what it costs more than the person's empty one. Lines stay in the table if many of a person's are left,
/// and few are copied. A copy of a region takes little memory, since lines are shared until one of the two
/// changes.
#[derive(Drop)]
pub struct Region {
    pub(crate) persons: Vec<Shared>,
    pub(crate) left_open: Set,
    pub(crate) flown: Set,
    pub(crate) least_open: usize,
    pub(crate) most_open: usize,
    pub(crate) scale: u32,
    pub(crate) idle: i64,
    pub(crate) unit: u64,
}

impl Model for Region {
    ghost use Rattle.roster_search_regions.specs.Regions as regions;

    ghost Value = { regions.Region };

    ghost view = { λ r. record {
      choices = r.persons.items;
      left_open = r.left_open;
      flown = r.flown;
      least_open = r.least_open;
      most_open = r.most_open;
      scale = r.scale;
      idle = r.idle;
      unit = r.unit;
    } };

    ghost use Rattle.std.specs.Prelude.{◌<◌, ◌≤◌};
    ghost use Rattle.roster_search_regions.specs.declared.choice.TheConstants.{MOST_SCALE, MOST_UNIT};
    ghost use Rattle.roster_model.specs.declared.limits.TheConstants.{MOST_PAIRINGS};

    ghost invariant = { λ r. (r.scale ≤ MOST_SCALE) × (0 < r.unit) × (r.unit ≤ MOST_UNIT)
        × (r.least_open ≤ MOST_PAIRINGS) × (r.most_open ≤ MOST_PAIRINGS) };
}

impl Region {
    /// How many parts a cost unit is counted in, at most `MOST_SCALE`.
    pub fn scale(&self) -> u32
        ensures value { result ≡ self.now.scale }
        ensures bound { result ≤ MOST_SCALE }
    {
        self.scale
    }

    /// What it costs that nobody has a pairing, penalties aside, in cost units.
    pub fn idle(&self) -> i64
        ensures { result ≡ self.now.idle }
    {
        self.idle
    }

    /// What each of its rosters costs more than `idle`, or less, is so many times this number of cost units.
    pub fn unit(&self) -> u64
        ensures value { result ≡ self.now.unit }
        ensures some { 0 < result }
        ensures bound { result ≤ MOST_UNIT }
    {
        self.unit
    }

    /// How many persons there are.
    pub fn persons(&self) -> usize
        ensures { result ≡ length self.now.choices }
    {
        self.persons.len()
    }

    /// The lines of person `k`, as a tree: each choice stands behind those that it goes on from.
    pub fn choices(&self, k: usize) -> Choices<'_>
        requires { k < length self.now.choices }
        ensures { lines_in result ≡ lines_of self.now k }
    {
        self.persons[k].tree().choices()
    }

    /// How many lines person `k` has.
    pub fn width(&self, k: usize) -> usize
        requires { k < length self.now.choices }
        ensures { result ≡ length (lines_of self.now k) }
    {
        self.persons[k].tree().count()
    }

    /// The pairings that some of person `k`'s lines have.
    pub fn possible(&self, k: usize) -> Set
        requires { k < length self.now.choices }
        ensures { ArePossible (lines_of self.now k) result }
    {
        self.persons[k].tree().possible()
    }

    /// The pairings that all of person `k`'s lines have, if there are any.
    pub fn certain(&self, k: usize) -> Set
        requires { k < length self.now.choices }
        ensures { AreCertain (lines_of self.now k) result }
    {
        self.persons[k].tree().certain()
    }

    /// Whether the pairing at place `p` must be open.
    pub fn is_left_open(&self, p: usize) -> bool
        ensures { result ≡ is_among self.now.left_open p }
    {
        self.left_open.has(p)
    }

    /// Whether the pairing at place `p` must not be open.
    pub fn is_flown(&self, p: usize) -> bool
        ensures { result ≡ is_among self.now.flown p }
    {
        self.flown.has(p)
    }

    /// How many pairings are open at least.
    pub fn least_open(&self) -> usize
        ensures value { result ≡ self.now.least_open }
        ensures bound { result ≤ MOST_PAIRINGS }
    {
        self.least_open
    }

    /// How many pairings are open at most.
    pub fn most_open(&self) -> usize
        ensures value { result ≡ self.now.most_open }
        ensures bound { result ≤ MOST_PAIRINGS }
    {
        self.most_open
    }

    /// The pairings that must be open.
    pub fn left_open(&self) -> &Set
        ensures { result.now ≡ self.now.left_open }
    {
        &self.left_open
    }

    /// The pairings that must not be open.
    pub fn flown(&self) -> &Set
        ensures { result.now ≡ self.now.flown }
    {
        &self.flown
    }

    /// The least value of person `k`'s lines at the prices, or less.
    pub fn least(&self, k: usize, prices: &[i64]) -> i64
        requires person { k < length self.now.choices }
        requires prices { ArePrices prices.now }
        ensures least { All (λ line. result ≤ℤ value_of prices.now line) (lines_of self.now k) }
        ensures bound { IsWithin MOST_VALUE result }
    {
        self.persons[k].tree().least(prices)
    }

    /// Whether one of person `k`'s lines has just the pairings of the set.
    pub fn offers(&self, alloc: Global, k: usize, set: &Set) -> Result<bool, AllocError>
        requires { k < length self.now.choices }
        ensures { IfOk result (λ has. MatchBool has (Offers (lines_of self.now k) set.now)
            (All (λ line. ¬ HasJust set.now line) (lines_of self.now k))) }
    {
        self.persons[k].tree().has(alloc, set)
    }

    /// The greatest value of person `k`'s lines at the prices; what asks for it counts on nothing.
    pub fn greatest(&self, k: usize, prices: &[i64]) -> i64
        requires person { k < length self.now.choices }
        requires prices { ArePrices prices.now }
    {
        self.persons[k].tree().greatest(prices)
    }

    /// The same region.
    pub fn copy(&self, alloc: Global) -> Result<Region, AllocError>
        ensures { IfOk result (λ region. region ≡ self.now) }
    {
        let mut persons = Vec::with_capacity(alloc, self.persons.len())?;
        for lines in &self.persons {
            persons.push(lines.copy()?)?;
        }
        Ok(Region {
            persons,
            left_open: self.left_open,
            flown: self.flown,
            least_open: self.least_open,
            most_open: self.most_open,
            scale: self.scale,
            idle: self.idle,
            unit: self.unit,
        })
    }

    /// Gives person `k` other lines.
    pub(crate) fn replace(&mut self, alloc: Global, k: usize, tree: Tree) -> Result<(), AllocError>
        requires { k < length self.old.choices }
        ensures { OnOk result
            (self.new ≡ with_lines self.old k tree) }
    {
        self.persons[k] = Shared::new(alloc, tree)?;
        Ok(())
    }

    /// Keeps those of person `k`'s lines that have the pairing at place `p`, or those that haven't.
    fn keep_having(
        &mut self,
        alloc: Global,
        k: usize,
        p: usize,
        wanted: bool,
    ) -> Result<(), AllocError>
        requires { k < length self.old.choices }
        ensures { OnOk result (self.new ≡ with_lines self.old k
            (filter (λ line. agrees wanted (is_among line.set p)) (lines_of self.old k))) }
    {
        if self.persons[k].tree().keeps_all(p, wanted) {
            return Ok(());
        }
        let tree = self.persons[k].tree().having(alloc, p, wanted)?;
        self.replace(alloc, k, tree)
    }

    /// Keeps those of person `k`'s lines that have none of the pairings of the set.
    fn keep_lacking(&mut self, alloc: Global, k: usize, taken: &Set) -> Result<(), AllocError>
        requires { k < length self.old.choices }
        ensures { OnOk result (self.new ≡ with_lines self.old k
            (filter (λ line. lacks taken.now line.set) (lines_of self.old k))) }
    {
        let tree = self.persons[k].tree().lacking(alloc, taken)?;
        self.replace(alloc, k, tree)
    }

    /// Keeps those of person `k`'s lines whose value at the prices is at most so much.
    pub fn keep_within(
        &mut self,
        alloc: Global,
        k: usize,
        prices: &[i64],
        most: i64,
    ) -> Result<(), AllocError>
        requires person { k < length self.old.choices }
        requires prices { ArePrices prices.now }
        ensures { OnOk result (self.new ≡ with_lines self.old k
            (filter (λ line. int_le (value_of prices.now line) most) (lines_of self.old k))) }
    {
        let tree = self.persons[k].tree().within(alloc, prices, most)?;
        self.replace(alloc, k, tree)
    }

    /// Person `k` has the pairing at place `p`.
    pub fn give(
        &mut self,
        alloc: Global,
        problem: &Problem,
        k: usize,
        p: usize,
    ) -> Result<(), AllocError>
        requires region { IsRegion problem.now self.old }
        requires person { k < length problem.now.persons }
        requires pairing { p < length problem.now.pairings }
        ensures narrowed { OnOk result (IsNarrowed problem.now (Has k p) self.old self.new) }
        ensures all { OnOk result (IsWhollyIn problem.now self.new (Has k p)) }
        ensures fewer { OnOk result (IsSplit self.old k p → size_of self.new < size_of self.old) }
    {
        self.keep_having(alloc, k, p, true)?;
        Ok(())
    }

    /// Person `k` hasn't the pairing at place `p`.
    pub fn deny(
        &mut self,
        alloc: Global,
        problem: &Problem,
        k: usize,
        p: usize,
    ) -> Result<(), AllocError>
        requires region { IsRegion problem.now self.old }
        requires person { k < length problem.now.persons }
        requires pairing { p < length problem.now.pairings }
        ensures narrowed { OnOk result (IsNarrowed problem.now (HasNot k p) self.old self.new) }
        ensures all { OnOk result (IsWhollyIn problem.now self.new (HasNot k p)) }
        ensures fewer { OnOk result (IsSplit self.old k p → size_of self.new < size_of self.old) }
    {
        self.keep_having(alloc, k, p, false)?;
        Ok(())
    }

    /// Person `k` has none of the pairings of the set.
    pub fn deny_all(
        &mut self,
        alloc: Global,
        problem: &Problem,
        k: usize,
        taken: &Set,
    ) -> Result<(), AllocError>
        requires region { IsRegion problem.now self.old }
        requires person { k < length problem.now.persons }
        ensures narrowed { OnOk result (IsNarrowed problem.now (HasNone k taken.now) self.old self.new) }
        ensures all { OnOk result (IsWhollyIn problem.now self.new (HasNone k taken.now)) }
    {
        self.keep_lacking(alloc, k, taken)?;
        Ok(())
    }

    /// The pairing at place `p` is open.
    pub fn leave_open(&mut self, problem: &Problem, p: usize)
        requires region { IsRegion problem.now self.old }
        requires pairing { p < length problem.now.pairings }
        ensures narrowed { IsNarrowed problem.now (Has (open_number problem.now) p) self.old self.new }
        ensures all { IsWhollyIn problem.now self.new (Has (open_number problem.now) p) }
        ensures lines { self.new.choices ≡ self.old.choices }
        ensures fewer { IsUndecidedAt self.old p → size_of self.new < size_of self.old }
    {
        prove!(problem.pairings().len() <= MOST_PAIRINGS);
        self.left_open = self.left_open.with(p).unwrap();
    }

    /// The pairing at place `p` isn't open.
    pub fn fly(&mut self, problem: &Problem, p: usize)
        requires region { IsRegion problem.now self.old }
        requires pairing { p < length problem.now.pairings }
        ensures narrowed { IsNarrowed problem.now (HasNot (open_number problem.now) p)
            self.old self.new }
        ensures all { IsWhollyIn problem.now self.new (HasNot (open_number problem.now) p) }
        ensures lines { self.new.choices ≡ self.old.choices }
        ensures fewer { IsUndecidedAt self.old p → size_of self.new < size_of self.old }
    {
        prove!(problem.pairings().len() <= MOST_PAIRINGS);
        self.flown = self.flown.with(p).unwrap();
    }

    /// At most so many pairings are open.
    pub fn open_at_most(&mut self, problem: &Problem, count: usize)
        requires region { IsRegion problem.now self.old }
        requires most { count ≤ self.old.most_open }
        ensures narrowed { IsNarrowed problem.now (HasOpenAtMost problem.now count) self.old self.new }
        ensures all { IsWhollyIn problem.now self.new (HasOpenAtMost problem.now count) }
        ensures fewer { self.old.least_open ≤ count → count < self.old.most_open
            → size_of self.new < size_of self.old }
    {
        self.most_open = count;
    }

    /// At least so many pairings are open.
    pub fn open_at_least(&mut self, problem: &Problem, count: usize)
        requires region { IsRegion problem.now self.old }
        requires least { self.old.least_open ≤ count }
        requires most { count ≤ self.old.most_open }
        ensures narrowed { IsNarrowed problem.now (HasOpenAtLeast problem.now count) self.old self.new }
        ensures all { IsWhollyIn problem.now self.new (HasOpenAtLeast problem.now count) }
        ensures fewer { self.old.least_open < count → size_of self.new < size_of self.old }
    {
        self.least_open = count;
    }
}
