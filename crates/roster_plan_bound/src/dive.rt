//! Rosters of columns: the person whose best column has the greatest share of the covers flies it, then the
//! next one, and between them prices and columns are renewed for those who are left. Nothing rests on it:
//! whoever takes such a roster judges it.

ghost use Rattle.std.specs.Prelude.{◌≡◌, ◌<◌, ◌≤◌, All, IfOk, length};
ghost use Rattle.roster_plan_bound.specs.Reduced.{ArePrices};

use crate::choosing::{Choice, greatest, next_of, sums_of};
use crate::columns::Columns;
use crate::covered::Covered;
use crate::dearness::dearness;
use crate::lists::amount_at;
use crate::master::{ascend, ascend_with_shares, counts_of};
use crate::own_cost::own_cost;
use crate::pace::Pace;
use crate::parts::{MOST_PLAN_PRICE, PARTS};
use crate::persons::{Seen, check, renew_all};
use crate::prices::limited;
use crate::pricing::Pricing;
use crate::team::Team;
use crate::tuning::{
    COUNTED_SOFTNESS, FEW_COLUMNS, LEAST_DIVE_SHARE, LOOKS_A_DIVE, ONE, SURE_SHARE,
};
use roster_problem::{Problem, open_number};
use std::alloc::{AllocError, Global};
use std::thread::{Threads, for_each_mut};

/// A roster in the making: who is left, what is known of them, the prices, which pairings are free, and whom
/// each pairing is given to so far.
#[derive(Drop)]
pub(crate) struct Dive<'a> {
    pricing: &'a Pricing<'a>,
    left: Vec<usize>,
    seen: Vec<Seen>,
    prices: Vec<i64>,
    free: Vec<Covered>,
    pub(crate) places: Vec<u16>,
    // What those who are left cost with what they had, and open pairings beside them, in parts of a cost
    // unit.
    known: i64,
    // How many pairs looks may still go through.
    pairs: u64,
}

/// How a roster of columns is made.
#[derive(Clone, Copy)]
pub struct DivePlan {
    /// How many looks at prices there are before anybody gets a column.
    pub looks: u32,
    /// Each time at least so many hundredths of those who are left get a column, if any is fair, and one does
    /// in any case.
    pub hundredths: usize,
    /// How many pairs of a person who is left and a pairing that is free looks go through in all, at most.
    /// Then known columns are given without a look.
    pub pairs: u64,
}

impl<'a> Dive<'a> {
    /// Begins with these prices and with the roster of these places, in which nobody is left.
    pub(crate) fn new(
        alloc: Global,
        pricing: &'a Pricing<'a>,
        prices: &[i64],
        places: &[u16],
    ) -> Result<Dive<'a>, AllocError> {
        let mut known = Vec::new(alloc);
        known.extend_from_slice(places)?;
        let mut begun = Vec::new(alloc);
        begun.extend_from_slice(prices)?;
        Ok(Dive {
            pricing,
            left: Vec::new(alloc),
            seen: Vec::new(alloc),
            prices: begun,
            free: Vec::new(alloc),
            places: known,
            known: 0,
            pairs: 0,
        })
    }

    /// Person `k`, of whom these columns are known, is left and gives up all pairings.
    pub(crate) fn leave(
        &mut self,
        alloc: Global,
        k: usize,
        columns: &Columns,
    ) -> Result<(), AllocError> {
        let nobody = open_number(self.pricing.problem());
        let cost = own_cost(self.pricing, k, &self.places);
        self.known = self.known.wrapping_add(cost);
        give_up(&mut self.places, k, nobody);
        let mut known = columns.copy(alloc)?;
        known.hints.wanted = FEW_COLUMNS;
        self.left.push(k)?;
        self.seen.push(Seen::before(known))?;
        Ok(())
    }

    /// Goes on until nobody is left. Those who are left get some of these pairings. It says false, and has
    /// done nothing, if the first looks show no hope of a cheaper roster.
    pub(crate) fn end<R: Threads + Sync>(
        &mut self,
        team: &Team<'_, R>,
        covered: &[Covered],
        plan: DivePlan,
    ) -> Result<bool, AllocError>
        requires { 0 < team.now.threads }
    {
        self.begin(covered)?;
        self.pairs = plan.pairs;
        self.look(team, plan.looks)?;
        if plan.looks > 0 && !self.has_hope() {
            return Ok(false);
        }
        for _ in 0..self.left.len() {
            if self.left.is_empty() {
                break;
            }
            let choices = self.choices(team)?;
            let least = self.left.len().saturating_mul(plan.hundredths) / 100;
            self.take(team.alloc, &choices, least)?;
            self.look(team, LOOKS_A_DIVE)?;
        }
        Ok(true)
    }

    /// Whether what is known of sets and prices leaves room for a roster that costs a unit less.
    fn has_hope(&self) -> bool {
        let mut least: i64 = PARTS as i64;
        for one in &self.seen {
            if let Ok(claim) = one.least {
                least = least.wrapping_add(claim);
            }
        }
        for pairing in &self.free {
            let price = amount_at(&self.prices, pairing.place);
            least = least.wrapping_add(price.min(pairing.penalty));
        }
        least <= self.known
    }

    /// Of these pairings those are free that nobody has. No other one pays.
    fn begin(&mut self, covered: &[Covered]) -> Result<(), AllocError> {
        let nobody = open_number(self.pricing.problem());
        for pairing in covered {
            if number_at(&self.places, pairing.place) == nobody {
                self.known = self.known.wrapping_add(pairing.penalty);
                self.free.push(*pairing)?;
            } else {
                forbid(&mut self.prices, pairing.place);
            }
        }
        Ok(())
    }

    /// Renews prices and columns of those who are left, so many times.
    fn look<R: Threads + Sync>(&mut self, team: &Team<'_, R>, looks: u32) -> Result<(), AllocError>
        requires { 0 < team.now.threads }
    {
        let mut pace = self.pace();
        for _ in 0..looks {
            if self.left.is_empty() || !self.pays() {
                break;
            }
            let wanted = ascend(team, &self.seen, &self.prices, &self.free, pace)?;
            let prices = limited(team.alloc, self.pricing.problem(), &wanted)?;
            renew_all(team, self.pricing, &self.left, &prices, &mut self.seen);
            check(&self.seen)?;
            self.prices = prices;
            pace.softness /= 2;
        }
        Ok(())
    }

    /// How prices move from one look to the next.
    fn pace(&self) -> Pace {
        Pace::of_dive(dearness(self.pricing.problem()))
    }

    /// Whether there may be one more look, which is then counted.
    fn pays(&mut self) -> bool {
        let pairs = (self.left.len() as u64).saturating_mul(self.free.len() as u64);
        if pairs > self.pairs {
            return false;
        }
        self.pairs = self.pairs.saturating_sub(pairs);
        true
    }

    /// Of each who is left the column of the greatest share, at the next prices.
    fn choices<R: Threads + Sync>(&mut self, team: &Team<'_, R>) -> Result<Vec<Choice>, AllocError>
        requires { 0 < team.now.threads }
    {
        let mut pace = self.pace();
        pace.softness = COUNTED_SOFTNESS.wrapping_mul(pace.dear);
        let mut sums = sums_of(team.alloc, &self.seen)?;
        self.prices = ascend_with_shares(
            team,
            &self.seen,
            &self.prices,
            &self.free,
            pace,
            &mut sums,
        )?;
        let counts = i64::from(counts_of(pace.steps));
        let mut choices = Vec::new(team.alloc);
        for at in 0..sums.len() {
            choices.push(greatest(at, &sums[at], counts))?;
        }
        Ok(choices)
    }

    /// Those whose shares are the greatest get their columns: one, all who are nearly sure of it, and so many
    /// at least whose shares are fair.
    fn take(&mut self, alloc: Global, choices: &[Choice], least: usize) -> Result<(), AllocError> {
        let mut gone = vec![in alloc; false; self.left.len()]?;
        for nth in 0..choices.len() {
            let Some(choice) = next_of(choices, &gone) else {
                break;
            };
            let is_fair = choice.share >= LEAST_DIVE_SHARE && nth < least;
            if nth > 0 && choice.share < SURE_SHARE && !is_fair {
                break;
            }
            self.give(choice);
            mark(&mut gone, choice.at);
        }
        self.renew(alloc, &gone)
    }

    /// Gives the pairings of the column that are still free to whose it is.
    fn give(&mut self, choice: Choice) {
        let nobody = open_number(self.pricing.problem());
        let (Some(k), Some(one)) = (self.left.get(choice.at), self.seen.get(choice.at)) else {
            return;
        };
        let number = (*k).min(usize::from(nobody)) as u16;
        for p in one.columns.places(choice.column) {
            let p = usize::from(*p);
            if p < self.places.len() && self.places[p] == nobody {
                self.places[p] = number;
                forbid(&mut self.prices, p);
            }
        }
    }

    /// Nobody of those who are gone is left, and only pairings that nobody has are free.
    fn renew(&mut self, alloc: Global, gone: &[bool]) -> Result<(), AllocError> {
        for i in 0..gone.len() {
            let last = gone.len() - 1 - i;
            if gone[last] && last < self.left.len() && last < self.seen.len() {
                let _ = self.left.swap_remove(last);
                let _ = self.seen.swap_remove(last);
            }
        }
        let nobody = open_number(self.pricing.problem());
        let mut free = Vec::new(alloc);
        for pairing in &self.free {
            if number_at(&self.places, pairing.place) == nobody {
                free.push(*pairing)?;
            }
        }
        self.free = free;
        Ok(())
    }
}

/// Whatever person `k` has nobody has.
fn give_up(places: &mut [u16], k: usize, nobody: u16) {
    for p in 0..places.len() {
        if usize::from(places[p]) == k {
            places[p] = nobody;
        }
    }
}

/// Marks the one at this place.
fn mark(marks: &mut [bool], at: usize) {
    if at < marks.len() {
        marks[at] = true;
    }
}

/// Nobody who is left takes this pairing.
fn forbid(prices: &mut [i64], p: usize) {
    if p < prices.len() {
        prices[p] = -(MOST_PLAN_PRICE as i64);
    }
}

/// The number at a place of a list, or 0.
fn number_at(places: &[u16], p: usize) -> u16 {
    match places.get(p) {
        Some(number) => *number,
        None => 0,
    }
}

/// One number for each pairing, none of them too great.
pub(crate) fn whole(
    alloc: Global,
    problem: &Problem,
    places: &[u16],
) -> Result<Vec<u16>, AllocError>
    ensures covers { IfOk result (λ places. length places.items ≡ length problem.now.pairings) }
    ensures numbers { IfOk result (λ places. All (λ x. x ≤ length problem.now.persons) places.items) }
{
    let nobody = open_number(problem);
    let mut numbers = Vec::new(alloc);
    for p in 0..problem.pairings().len() {
        numbers.push(number_at(places, p).min(nobody))?;
    }
    Ok(numbers)
}
