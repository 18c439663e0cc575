//! Prices on their rise: a bound that gets better round by round.

ghost use Rattle.std.specs.Prelude.{◌≡◌, ◌<◌, ◌≤◌, ◌≤ℤ◌, ◌+ℤ◌, ℕ, pos, All, IfOk, List, length};
ghost use Rattle.roster_model.specs.Costs.{cost_of};
ghost use Rattle.roster_lines_table.specs.Person.{AreListed, IsOfTable};
ghost use Rattle.roster_bases.specs.Bases.{only};
ghost use Rattle.roster_bases.specs.Homes.{EachHomeRoster, IsHome, IsHomeBound};

mod claims;

use crate::covered::covered_of;
use crate::dearness::dearness;
use crate::dive::{Dive, DivePlan, whole};
use crate::gap::lines_of_gap;
use crate::lists::is_marked;
use crate::master::ascend;
use crate::pace::Pace;
use crate::persons::{Seen, judge_labels, unseen};
use crate::prices::{limited, no_prices};
use crate::pricing::{Priced, Pricing};
use crate::start::{scarce_prices, start_prices};
use crate::team::Team;
use crate::tuning::{MOST_IDLE, MOST_VISITS, OPEN_PARTS, VISITS_A_LOOK};
use roster_bases::persons_of;
use roster_lines::TableFault;
use roster_lines_table::Table;
use roster_model::limits::MOST_LINES;
use std::alloc::{AllocError, Global};
use std::marker::Model;
use std::thread::Threads;

/// For the rosters in which only persons of one base fly: what no legal one costs less than, and the prices
/// that say so, the best so far. Each roster falls apart into such ones, since nobody flies a pairing of
/// another base. Contracts see the problem, the base and that number.
#[derive(Drop)]
pub struct PricedBound<'a> {
    pricing: &'a Pricing<'a>,
    base: usize,
    // The persons of the base, and what looks know of each.
    persons: Vec<usize>,
    seen: Vec<Seen>,
    // The best prices so far, and what they say.
    prices: Vec<i64>,
    priced: Priced,
    // The prices at which known columns claim most, and how much that is, in parts.
    claimed: Vec<i64>,
    claim: i64,
    // How the next prices move from these.
    pace: Pace,
    // How many looks in a row have claimed neither a cost unit more nor one less.
    idle: u32,
    // How many looks there were since searches showed a claim, and how many there are before they do again:
    // twice as many each time that it was true.
    unshown: u32,
    trust: u32,
}

impl<'a> Model for PricedBound<'a> {
    ghost use Rattle.std.specs.Prelude.{vec_len};
    ghost use Rattle.roster_plan_bound.specs.Looks.{Bounded, IsPricedBound};

    ghost Value = { Bounded };

    ghost view = { λ b. record { problem = b.pricing.now; base = b.base; bound = b.priced.bound } };

    ghost invariant = { λ b. IsPricedBound b.pricing.now b.base b.persons.items
        (vec_len b.seen) b.prices.items b.priced.leasts.items b.priced.bound };
}

impl<'a> PricedBound<'a> {
    /// What no prices at all say of the base at this place, or the first prices, if these say more: also such
    /// at which parts of all flight stay open, if likely many pairings do. The team shares its persons.
    pub fn new<R: Threads + Sync>(
        team: &Team<'_, R>,
        pricing: &'a Pricing<'a>,
        base: usize,
        is_open: bool,
    ) -> Result<PricedBound<'a>, AllocError>
        requires { 0 < team.now.threads }
        ensures problem { IfOk result (λ bound. bound.problem ≡ pricing.now) }
        ensures base { IfOk result (λ bound. bound.base ≡ base) }
    {
        let mut bound = PricedBound::unpriced(team, pricing, base)?;
        if is_open {
            bound.look_at_scarce(team)?;
        }
        bound.look_first(team)?;
        bound.show(team, VISITS_A_LOOK)?;
        Ok(bound)
    }

    /// The prices that say so, one for each pairing, in `PARTS` parts of a cost unit.
    pub fn prices(&self) -> &[i64] {
        &self.prices
    }

    /// No legal roster in which only persons of the base fly costs less, in cost units.
    pub fn bound(&self) -> i64
        ensures value { result ≡ self.now.bound }
        ensures bound { IsHomeBound self.now.problem (only self.now.base) result }
    {
        self.priced.bound
    }

    /// Raises the bound by so many looks at other prices. Each look lists legal sets that cost little, and
    /// the next prices are the best ones for all that are known: column generation, with prices kept near
    /// those at which most is claimed. Now and then searches show what is claimed, less often as long as it
    /// is true. There are fewer looks if many in a row claim about the same, or if the bound is what a known
    /// roster costs. Any number of threads that share the persons of a look gives the same bound.
    pub fn raise<R: Threads + Sync>(
        &mut self,
        team: &Team<'_, R>,
        known: i64,
        looks: u32,
    ) -> Result<(), AllocError>
        requires { 0 < team.now.threads }
        ensures problem { self.new.problem ≡ self.old.problem }
        ensures base { self.new.base ≡ self.old.base }
        ensures raised { self.old.bound ≤ℤ self.new.bound }
    {
        for _ in 0..looks {
            if self.is_done(known) {
                break;
            }
            self.step(team)?;
            self.show_if_due(team, known)?;
        }
        Ok(())
    }

    /// Shows what is claimed at the best prices, by longer searches than those between looks. The team shares
    /// the persons.
    pub fn settle<R: Threads + Sync>(&mut self, team: &Team<'_, R>) -> Result<(), AllocError>
        requires { 0 < team.now.threads }
        ensures problem { self.new.problem ≡ self.old.problem }
        ensures base { self.new.base ≡ self.old.base }
        ensures raised { self.old.bound ≤ℤ self.new.bound }
    {
        self.show(team, MOST_VISITS)
    }

    /// Whether `raise` looks no more: the bound is what a known roster costs, or looks claim no more.
    pub fn is_done(&self, known: i64) -> bool {
        self.priced.bound >= known || self.idle >= MOST_IDLE
    }

    /// For the rosters in which only persons of the base fly: the lines that each of them may have in a legal
    /// one that costs at most so many units more than the bound, if nobody has more than `most`. Other
    /// persons have the empty line.
    pub fn lines_within(&self, alloc: Global, gap: u32, most: usize) -> Result<Table, TableFault>
        requires { (0 < most) × (most ≤ MOST_LINES) }
        ensures listed { IfOk result (AreListed self.now.problem) }
        ensures all { IfOk result (λ table. EachHomeRoster self.now.problem (only self.now.base) (λ places.
            cost_of self.now.problem places ≤ℤ (self.now.bound +ℤ pos gap)
            → IsOfTable table places)) }
        ensures home { IfOk result (λ table. (places : List ℕ)
            → IsOfTable table places → IsHome self.now.problem (only self.now.base) places) }
    {
        lines_of_gap(
            alloc,
            self.pricing,
            self.base,
            &self.prices,
            &self.priced,
            gap,
            most,
        )
    }

    /// Of a roster in which the persons of the base who are free get other pairings, by columns that cost
    /// little for all of them together: whom each pairing is given to. All others keep what the given places
    /// give them. It begins with so many looks, and each time at least so many hundredths of those who are
    /// left get theirs. It need not be legal. The places are as given if the first looks leave no hope. The
    /// team shares the persons of a look, and each number of threads gives the same.
    pub fn dive<R: Threads + Sync>(
        &self,
        team: &Team<'_, R>,
        given: &[u16],
        free: &[bool],
        plan: DivePlan,
    ) -> Result<Vec<u16>, AllocError>
        requires { 0 < team.now.threads }
        ensures covers { IfOk result (λ places. length places.items ≡ length self.now.problem.pairings) }
        ensures numbers { IfOk result
            (λ places. All (λ x. x ≤ length self.now.problem.persons) places.items) }
    {
        let alloc = team.alloc;
        let problem = self.pricing.problem();
        let mut dive = Dive::new(alloc, self.pricing, &self.prices, given)?;
        for (i, k) in self.persons.iter().enumerate() {
            if is_marked(free, *k) && i < self.seen.len() {
                dive.leave(alloc, *k, &self.seen[i].columns)?;
            }
        }
        let covered = covered_of(alloc, problem, self.base)?;
        if !dive.end(team, &covered, plan)? {
            return whole(alloc, problem, given);
        }
        whole(alloc, problem, &dive.places)
    }

    /// What no prices at all say of the base at this place.
    fn unpriced<R: Threads + Sync>(
        team: &Team<'_, R>,
        pricing: &'a Pricing<'a>,
        base: usize,
    ) -> Result<PricedBound<'a>, AllocError>
        requires { 0 < team.now.threads }
        ensures problem { IfOk result (λ bound. bound.problem ≡ pricing.now) }
        ensures base { IfOk result (λ bound. bound.base ≡ base) }
    {
        let alloc = team.alloc;
        let problem = pricing.problem();
        let persons = persons_of(alloc, problem, base)?;
        let dear = dearness(problem);
        let mut seen = unseen(alloc, persons.len(), dear)?;
        let prices = no_prices(alloc, problem)?;
        let priced = pricing.look(team, base, &persons, &prices, 0, &mut seen)?;
        let claimed = no_prices(alloc, problem)?;
        let claim = priced.parts;
        Ok(PricedBound {
            pricing,
            base,
            persons,
            seen,
            prices,
            priced,
            claimed,
            claim,
            pace: Pace::first(dear),
            idle: 0,
            unshown: 0,
            trust: 1,
        })
    }

    /// Finds columns at prices at which parts of all flight stay open. Cheap labels likely break a limit
    /// then.
    fn look_at_scarce<R: Threads + Sync>(&mut self, team: &Team<'_, R>) -> Result<(), AllocError>
        requires { 0 < team.now.threads }
        ensures { self.new ≡ self.old }
    {
        judge_labels(&mut self.seen);
        self.look_at_part(team, OPEN_PARTS[0])?;
        self.look_at_part(team, OPEN_PARTS[1])?;
        self.look_at_part(team, OPEN_PARTS[2])?;
        self.look_at_part(team, OPEN_PARTS[3])?;
        self.pace = Pace::first(self.pace.dear);
        Ok(())
    }

    /// Finds columns at prices at which so large a part of all flight stays open.
    fn look_at_part<R: Threads + Sync>(
        &mut self,
        team: &Team<'_, R>,
        part: u64,
    ) -> Result<(), AllocError>
        requires { 0 < team.now.threads }
        ensures { self.new ≡ self.old }
    {
        let wanted = scarce_prices(team.alloc, self.pricing, self.base, &self.persons, part)?;
        self.look_at(team, &wanted)
    }

    /// Finds columns at the first prices.
    fn look_first<R: Threads + Sync>(&mut self, team: &Team<'_, R>) -> Result<(), AllocError>
        requires { 0 < team.now.threads }
        ensures { self.new ≡ self.old }
    {
        let wanted = start_prices(team.alloc, self.pricing, self.base, &self.persons)?;
        self.look_at(team, &wanted)?;
        self.pace = Pace::first(self.pace.dear);
        Ok(())
    }

    /// Finds columns at the next prices.
    fn step<R: Threads + Sync>(&mut self, team: &Team<'_, R>) -> Result<(), AllocError>
        requires { 0 < team.now.threads }
        ensures { self.new ≡ self.old }
    {
        let covered = covered_of(team.alloc, self.pricing.problem(), self.base)?;
        let wanted = ascend(team, &self.seen, &self.claimed, &covered, self.pace)?;
        self.look_at(team, &wanted)
    }

    /// Finds columns at these prices, as far as they are within the limits of prices.
    fn look_at<R: Threads + Sync>(
        &mut self,
        team: &Team<'_, R>,
        wanted: &[i64],
    ) -> Result<(), AllocError>
        requires { 0 < team.now.threads }
        ensures { self.new ≡ self.old }
    {
        let prices = limited(team.alloc, self.pricing.problem(), wanted)?;
        self.look(team, prices)
    }
}
