//! The limits of duty and flight.

ghost use Rattle.std.specs.Prelude.{◌≡◌, ◌+◌, ◌≤◌, ◌↔◌, IsTrue, IfSome, option_map, slice_index};
ghost use Rattle.roster_model.specs.Rules.{IsFirstLimit};
ghost use Rattle.roster_model.specs.Rules.Limits.{KeepsLimit};
ghost use Rattle.roster_model.specs.Sums as sums;
ghost use Rattle.roster_model.specs.Sums.{on_day};
ghost use Rattle.roster_values.specs.View.{limit_of, rule_of};
ghost use Rattle.roster_cumulative.specs.Limited.{IsKept};
ghost use Rattle.roster_cumulative.specs.Table.{IsLight, AreMinutesByDay, minutes_of};

use crate::runs::greatest_run;
use crate::sums::month_flight;
use crate::table::{Measure, minutes_by_day};
use crate::whole::keeps_whole;
use roster_instants::BaseDays;
use roster_model::limits::{DAYS_BEFORE, LAST_INSTANT, MOST_DAYS, MOST_DUTIES};
use roster_model::profile::{
    LONG_RUN, MIDDLE_RUN, MOST_DUTY_IN_7_DAYS, MOST_DUTY_IN_14_DAYS, MOST_DUTY_IN_28_DAYS,
    MOST_FLIGHT_IN_12_MONTHS, MOST_FLIGHT_IN_28_DAYS, MOST_FLIGHT_IN_A_YEAR, SHORT_RUN,
};
use roster_problem::{DutyList, Person};
use roster_values::{Limit, Rule};
use std::marker::Model;

/// Whether each judged run of `n` days has at most so many minutes.
fn keeps_limit(days: &BaseDays, table: &[u64; MOST_DAYS], n: usize, most: u64) -> bool
    requires run { n ≤ DAYS_BEFORE }
    requires light { IsLight MOST_DUTIES table.now }
    ensures { IsTrue result ↔ KeepsLimit (slice_index table.now) days.now n most }
{
    greatest_run(days, table, n) <= most
}

/// Whether each judged run of `n` days has at most so many minutes of the measure. Those of each day are
/// summed into the place for them, if that isn't done.
fn keeps_summed(
    place: &mut Option<[u64; MOST_DAYS]>,
    days: &BaseDays,
    list: &DutyList,
    measure: Measure,
    n: usize,
    most: u64,
) -> bool
    requires table { IfSome place.old (AreMinutesByDay measure days.now list.now) }
    requires run { n ≤ DAYS_BEFORE }
    ensures value { IsTrue result
        ↔ KeepsLimit (on_day (minutes_of measure) days.now list.now) days.now n most }
    ensures table { IfSome place.new (AreMinutesByDay measure days.now list.now) }
{
    if place.is_none() {
        *place = Some(minutes_by_day(days, list, measure));
    }
    keeps_limit(days, place.as_ref().unwrap(), n, most)
}

/// A duty list as the limits see it, with what the person has flown before the month. The minutes of
/// its days are summed when a limit first asks for them, those of duty and of flight apart.
#[derive(Drop)]
pub struct ListLimits<'a> {
    days: &'a BaseDays,
    list: &'a DutyList<'a>,
    carried: &'a Person,
    duty: Option<[u64; MOST_DAYS]>,
    flight: Option<[u64; MOST_DAYS]>,
}

impl<'a> Model for ListLimits<'a> {
    ghost use Rattle.std.specs.Prelude.{IfSome};
    ghost use Rattle.roster_cumulative.specs.Limited.{Limited};

    ghost Value = { Limited };

    ghost view = { λ l. record { days = l.days.now; list = l.list.now; carried = l.carried.now } };

    ghost use Rattle.roster_cumulative.specs.declared.table.Measure.TheVariants.{Duty, Flight};
    ghost use Rattle.roster_cumulative.specs.Table.{AreMinutesByDay};

    ghost invariant = { λ l. IfSome l.duty (AreMinutesByDay Duty l.days.now l.list.now)
        × IfSome l.flight (AreMinutesByDay Flight l.days.now l.list.now) };
}

impl<'a> ListLimits<'a> {
    /// The list as the limits see it, before any minutes are summed.
    pub fn new(days: &'a BaseDays, list: &'a DutyList<'a>, carried: &'a Person) -> ListLimits<'a>
        ensures { result ≡ record { days = days.now; list = list.now; carried = carried.now } }
    {
        ListLimits {
            days,
            list,
            carried,
            duty: None,
            flight: None,
        }
    }

    /// Whether the list keeps the limit.
    pub fn holds(&mut self, limit: Limit) -> bool
        ensures value { IsTrue result ↔ IsKept self.old (limit_of limit) }
        ensures same { self.new ≡ self.old }
    {
        let carried = self.carried;
        match limit {
            Limit::Duty7 => self.keeps_runs(Measure::Duty, SHORT_RUN, MOST_DUTY_IN_7_DAYS),
            Limit::Duty14 => self.keeps_runs(Measure::Duty, MIDDLE_RUN, MOST_DUTY_IN_14_DAYS),
            Limit::Duty28 => self.keeps_runs(Measure::Duty, LONG_RUN, MOST_DUTY_IN_28_DAYS),
            Limit::Flight28 => self.keeps_runs(Measure::Flight, LONG_RUN, MOST_FLIGHT_IN_28_DAYS),
            Limit::FlightYear => self.keeps_month(carried.year, MOST_FLIGHT_IN_A_YEAR),
            Limit::Flight12 => self.keeps_month(carried.eleven, MOST_FLIGHT_IN_12_MONTHS),
        }
    }

    /// Whether each judged run of `n` days has at most so many minutes of the measure. No run has more
    /// than all duties.
    fn keeps_runs(&mut self, measure: Measure, n: usize, most: u64) -> bool
        requires { n ≤ DAYS_BEFORE }
        ensures value { let l = self.old in
            IsTrue result ↔ KeepsLimit (on_day (minutes_of measure) l.days l.list) l.days n most }
        ensures same { self.new ≡ self.old }
    {
        let (days, list) = (self.days, self.list);
        if keeps_whole(days, list, measure, n, most) {
            return true;
        }
        match measure {
            Measure::Duty => keeps_summed(&mut self.duty, days, list, measure, n, most),
            Measure::Flight => keeps_summed(&mut self.flight, days, list, measure, n, most),
        }
    }

    /// Whether the flight of the month, with what was flown before it, is at most so many minutes.
    fn keeps_month(&self, before: u32, most: u64) -> bool
        requires { most ≤ LAST_INSTANT }
        ensures { IsTrue result ↔ (before + sums.month_flight self.now.days self.now.list ≤ most) }
    {
        prove!(self.list.len() <= MOST_DUTIES);
        i64::from(before) + month_flight(self.days, self.list) <= most as i64
    }
}

/// The first limit that the list breaks, if there is one, with what the person has flown before the
/// month.
pub fn cumulative_broken(days: &BaseDays, list: &DutyList, carried: &Person) -> Option<Rule>
    ensures { IsFirstLimit days.now list.now carried.now.year carried.now.eleven
        (option_map rule_of result) }
{
    let mut limits = ListLimits::new(days, list, carried);
    for limit in Limit::ALL {
        if !limits.holds(limit) {
            return Some(limit.rule());
        }
    }
    None
}
