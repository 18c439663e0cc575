//! What the paths of a person bring at some prices: tables say what all of them bring at least.

ghost use Rattle.std.specs.Prelude.{◌≡◌, ◌<◌, ◌≤◌, ◌*◌, ◌≤ℤ◌, ◌⊎◌, IfOk, IfSome, length};
ghost use Rattle.roster_cost.specs.Amounts.{IsWithin};
ghost use Rattle.roster_plan_bound.specs.Networks.{AreValues};
ghost use Rattle.roster_plan_bound.specs.Prospects.{term_of, IsAhead, IsLeastPath, IsTable};
ghost use Rattle.roster_plan_bound.specs.Reduced.{ArePrices, IsLeastOf};
ghost use Rattle.roster_plan_bound.specs.Timelines.{IsTimeline};

use crate::behind::{Valued, behind_of};
use crate::lists::{amount_at, flight_at};
use crate::parts::{MOST_CHAIN_VALUE, MOST_FLIGHT, MOST_LEAST, MOST_LOAD, MOST_WORTH};
use crate::spare::{is_scarce, spare_flight};
use crate::target::{beyond_target, fixed_at, minute_weight, missed_more};
use crate::timeline::Timeline;
use crate::tolls::{laden, laden_values, less_toll, near_toll};
use crate::values::values_of;
use crate::worths::{WorthTable, near_worth, worth_values};
use roster_cumulative::flight_of_set;
use roster_legal::part_of_legal_is_legal;
use roster_model::limits::MOST_PAIRINGS;
use roster_problem::Problem;
use std::alloc::{AllocError, Global};
use std::marker::Model;

/// What is still due where a pairing ends a path: since the instant of the class no recurrent rest lies
/// before its end, and so many pairs of days off still have to come.
#[derive(Clone, Copy)]
pub(crate) struct Due {
    pub(crate) class: usize,
    pub(crate) need: usize,
}

/// What is known of a person at some prices. Contracts see the problem, the person, the timeline, the prices,
/// and what each pairing brings at them.
#[derive(Drop)]
pub(crate) struct Prospect<'a> {
    problem: &'a Problem,
    person: usize,
    timeline: &'a Timeline,
    prices: &'a [i64],
    units: Vec<i64>,
    tables: Vec<WorthTable>,
    weight: i64,
    short: i64,
    /// The minutes of flight that limits leave beside the fixed ones.
    spare: u64,
    /// Whether that is little.
    is_scarce: bool,
}

impl<'a> Model for Prospect<'a> {
    ghost use Rattle.roster_plan_bound.specs.Prospects.{IsProspect, Outlook};

    ghost Value = { Outlook };

    ghost view = { λ o. record {
      problem = o.problem.now;
      person = o.person;
      timeline = o.timeline.now;
      prices = o.prices.now;
      units = o.units.items;
    } };

    ghost invariant = { λ o. IsProspect o.problem.now o.person o.timeline.now o.prices.now o.units.items
        o.tables.items o.weight o.short o.spare };
}

impl<'a> Prospect<'a> {
    /// What is known of the person, without tables; none if the fixed flight is too far from the target.
    pub(crate) fn new(
        alloc: Global,
        problem: &'a Problem,
        person: usize,
        timeline: &'a Timeline,
        prices: &'a [i64],
    ) -> Result<Option<Prospect<'a>>, AllocError>
        requires person { person < length problem.now.persons }
        requires timeline { IsTimeline problem.now person timeline.now }
        requires prices { ArePrices problem.now prices.now }
        ensures problem { IfOk result (λ found. IfSome found (λ prospect. prospect.problem ≡ problem.now)) }
        ensures person { IfOk result (λ found. IfSome found (λ prospect. prospect.person ≡ person)) }
        ensures timeline { IfOk result (λ found. IfSome found (λ prospect. prospect.timeline ≡ timeline.now)) }
        ensures prices { IfOk result (λ found. IfSome found (λ prospect. prospect.prices ≡ prices.now)) }
    {
        let Some(short) = beyond_target(problem, person) else {
            return Ok(None);
        };
        let units = values_of(alloc, problem, person, prices)?;
        let spare = spare_flight(problem, person);
        Ok(Some(Prospect {
            problem,
            person,
            timeline,
            prices,
            units,
            tables: Vec::new(alloc),
            weight: minute_weight(problem),
            short,
            spare,
            is_scarce: is_scarce(timeline, spare),
        }))
    }

    /// The problem.
    pub(crate) fn problem(&self) -> &'a Problem
        ensures { result.now ≡ self.now.problem }
    {
        self.problem
    }

    /// The place of the person.
    pub(crate) fn person(&self) -> usize
        ensures value { result ≡ self.now.person }
        ensures there { self.now.person < length self.now.problem.persons }
    {
        self.person
    }

    /// The person's timeline.
    pub(crate) fn timeline(&self) -> &'a Timeline
        ensures value { result.now ≡ self.now.timeline }
        ensures is { IsTimeline self.now.problem self.now.person self.now.timeline }
    {
        self.timeline
    }

    /// What each pairing brings.
    pub(crate) fn units(&self) -> &[i64]
        ensures value { result.now ≡ self.now.units }
        ensures are { AreValues self.now.problem self.now.prices self.now.person self.now.units }
    {
        self.units.as_slice()
    }

    /// Makes the table at what a minute of flight costs, or at the nearest worth that may be: no more than
    /// the weight, on either side, but any above it if limits leave little flight. A minute of the sum that
    /// is watched costs the toll. If memory runs out, nothing has changed.
    pub(crate) fn add(&mut self, alloc: Global, worth: i64, toll: i64) -> Result<(), AllocError>
        ensures { self.new ≡ self.old }
    {
        let table = self.table_at(alloc, worth, toll)?;
        self.tables.push(table)?;
        Ok(())
    }

    /// Makes tables at worths nearer and nearer to the one that says most, so often one on either side.
    pub(crate) fn refine(&mut self, alloc: Global, times: u32) -> Result<(), AllocError>
        ensures { self.new ≡ self.old }
    {
        for _ in 0..times {
            let (best, toll) = self.best();
            let (below, above) = self.neighbours(best);
            self.add(alloc, best.wrapping_add(below) / 2, toll)?;
            self.add(alloc, best.wrapping_add(above) / 2, toll)?;
        }
        Ok(())
    }

    /// Makes tables at tolls nearer and nearer to the one that says most, so often one on either side, the
    /// first ones so far from it.
    pub(crate) fn refine_toll(
        &mut self,
        alloc: Global,
        times: u32,
        step: i64,
    ) -> Result<(), AllocError>
        ensures { self.new ≡ self.old }
    {
        let mut step = step;
        for _ in 0..times {
            let (worth, toll) = self.best();
            let less = if toll > 0 { step } else { 0 };
            self.add(alloc, worth.wrapping_sub(step), toll.wrapping_add(step))?;
            self.add(alloc, worth.wrapping_add(less), toll.wrapping_sub(less))?;
            let (worth, toll) = self.best();
            self.add(alloc, worth, toll.wrapping_sub(step))?;
            self.add(alloc, worth, toll.wrapping_add(step))?;
            step = (step / 2).max(1);
        }
        Ok(())
    }

    /// The nearest worths of tables on either side of this one, or it itself if there is none.
    fn neighbours(&self, worth: i64) -> (i64, i64) {
        let (mut below, mut above) = (worth, worth);
        for table in &self.tables {
            if table.worth < worth && (below == worth || table.worth > below) {
                below = table.worth;
            }
            if table.worth > worth && (above == worth || table.worth < above) {
                above = table.worth;
            }
        }
        (below, above)
    }

    /// The table at what a minute of flight costs, or at the nearest worth that may be, and at the toll.
    fn table_at(&self, alloc: Global, worth: i64, toll: i64) -> Result<WorthTable, AllocError>
        ensures { IfOk result
            (IsTable self.now.problem self.now.person self.now.timeline self.now.units) }
    {
        self.problem.is_sound();
        let worth = near_worth(worth, self.weight, self.is_scarce);
        let toll = near_toll(toll);
        let timeline = self.timeline;
        let laden = laden_values(alloc, &self.units, &timeline.loads, toll)?;
        let values = worth_values(alloc, &laden, &timeline.flights, worth)?;
        let valued = Valued {
            problem: self.problem,
            person: self.person,
            timeline,
            values: &values,
        };
        let behind = behind_of(alloc, &valued)?;
        let fixed = fixed_at(worth, self.weight, self.short, self.spare);
        Ok(WorthTable {
            worth,
            toll,
            fixed: less_toll(fixed, toll, timeline.spare_load),
            behind,
        })
    }

    /// No line of the person has a lower reduced cost.
    pub(crate) fn least(&self) -> i64
        ensures { IsLeastOf self.now.problem self.now.prices self.now.person result }
    {
        self.problem.is_sound();
        let mut least = -(MOST_LEAST as i64);
        for i in 0..self.tables.len() {
            least = raised(least, self.tables[i].begun());
        }
        self.is_least(least);
        least
    }

    /// What a path brings at least that begins with pairings of that value, flight and load, of which `q` is
    /// the last one, with what is due at its end. No path has more flight than limits leave. No more tables
    /// are asked than say enough.
    pub(crate) fn ahead(
        &self,
        value: i64,
        flight: u64,
        load: u64,
        q: usize,
        due: Due,
        enough: i64,
    ) -> i64
        requires pairing { q < length self.now.problem.pairings }
        requires value { IsWithin (MOST_PAIRINGS * MOST_CHAIN_VALUE) value }
        requires flight { flight ≤ MOST_PAIRINGS * MOST_FLIGHT }
        requires load { load ≤ MOST_PAIRINGS * MOST_LOAD }
        ensures { IsAhead self.now.problem self.now.person self.now.timeline self.now.units value flight load q
            due.class due.need result }
    {
        self.problem.is_sound();
        if flight > self.spare {
            return i64::MAX;
        }
        if load > self.timeline.spare_load {
            return i64::MAX;
        }
        let mut least = -(MOST_LEAST as i64);
        for i in 0..self.tables.len() {
            if least >= enough {
                break;
            }
            let table = &self.tables[i];
            let value = laden(value, load, table.toll);
            least = greater(least, table.ahead(value, flight, q, due.class, due.need));
        }
        least
    }

    /// What so much flight beyond the fixed one costs.
    pub(crate) fn term(&self, flight: u64) -> i64
        requires { flight ≤ MOST_PAIRINGS * MOST_FLIGHT }
        ensures { result ≡ term_of self.now.problem self.now.person flight }
    {
        self.problem.is_sound();
        missed_more(self.weight, self.short, flight)
    }

    /// What no path brings less than, no line has a lower reduced cost than.
    pub(crate) fn is_least(&self, least: i64)
        requires path { IsLeastPath self.now.problem self.now.person self.now.timeline self.now.units least }
        requires within { IsWithin MOST_LEAST least }
        ensures { IsLeastOf self.now.problem self.now.prices self.now.person least }
    {
        part_of_legal_is_legal();
        flight_of_set();
        self.problem.is_sound();
    }

    /// Whether limits leave so much flight, and so much of the sum that is watched.
    pub(crate) fn spares(&self, flight: u64, load: u64) -> bool {
        flight <= self.spare && load <= self.timeline.spare_load
    }

    /// Whether pairings that are legal alone take more of the sum that is watched than is left.
    pub(crate) fn is_laden(&self) -> bool {
        let mut minutes: u64 = 0;
        for q in &self.timeline.order {
            minutes = minutes.wrapping_add(flight_at(&self.timeline.loads, *q));
        }
        minutes > self.timeline.spare_load
    }

    /// How much a minute of the sum that is watched is worth, about: what the pairings that bring something
    /// at the best worth bring by the minute.
    pub(crate) fn usual_toll(&self) -> i64 {
        let (worth, _) = self.best();
        let mut saved: i64 = 0;
        let mut minutes: u64 = 0;
        for q in &self.timeline.order {
            let flight = flight_at(&self.timeline.flights, *q).min(MOST_WORTH) as i64;
            let value = amount_at(&self.units, *q).wrapping_add(worth.wrapping_mul(flight));
            if value < 0 {
                saved = saved.wrapping_sub(value);
                minutes = minutes.wrapping_add(flight_at(&self.timeline.loads, *q));
            }
        }
        (saved / (minutes.max(1).min(MOST_WORTH) as i64)).max(self.weight)
    }

    /// Whether limits leave little flight, so that it may be worth more than the weight.
    pub(crate) fn is_scarce(&self) -> bool {
        self.is_scarce
    }

    /// How much a minute of flight is worth, about: the weight, or, if limits leave little flight, what the
    /// pairings that bring something bring by the minute.
    pub(crate) fn usual_worth(&self) -> i64 {
        if !self.is_scarce {
            return self.weight;
        }
        let mut saved: i64 = 0;
        let mut minutes: u64 = 0;
        for q in &self.timeline.order {
            let units = amount_at(&self.units, *q);
            if units < 0 {
                saved = saved.wrapping_sub(units);
                minutes = minutes.wrapping_add(flight_at(&self.timeline.flights, *q));
            }
        }
        (saved / (minutes.max(1).min(MOST_WORTH) as i64)).max(self.weight)
    }

    /// The prices.
    pub(crate) fn prices(&self) -> &'a [i64] {
        self.prices
    }

    /// What a minute of flight is worth to the table that says most, and its toll; nothing if there is none.
    pub(crate) fn best(&self) -> (i64, i64) {
        let mut best = (0, 0);
        let mut most = i64::MIN;
        for table in &self.tables {
            let begun = table.begun_at_most();
            if begun > most {
                best = (table.worth, table.toll);
                most = begun;
            }
        }
        best
    }
}

/// The greater one, as far as the limit.
fn raised(least: i64, amount: i64) -> i64
    requires { IsWithin MOST_LEAST least }
    ensures one { (result ≡ least) ⊎ (result ≤ℤ amount) }
    ensures greater { least ≤ℤ result }
    ensures within { IsWithin MOST_LEAST result }
{
    if amount > least {
        return amount.min(MOST_LEAST as i64);
    }
    least
}

/// The greater one.
fn greater(least: i64, amount: i64) -> i64
    ensures { (result ≡ least) ⊎ (result ≡ amount) }
{
    if amount > least { amount } else { least }
}
