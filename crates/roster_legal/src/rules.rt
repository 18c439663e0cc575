//! The rules together, of a list and of a set with one pairing more. A file for each rule has what
//! `roster_restrules` and `roster_cumulative` don't judge of it.

ghost use Rattle.std.specs.Prelude.{◌≡◌, ◌<◌, ◌≤◌, ◌↔◌, false, IsTrue, All, length, option_map};
ghost use Rattle.roster_model.specs.Rules.{duty_list, Holds, IsFirstBroken};
ghost use Rattle.roster_problem.specs.Duties.{AreTimed, IsInOrder};
ghost use Rattle.roster_values.specs.View.{rule_of};
ghost use Rattle.roster_legal.specs.Looks.{LookAt};
ghost use Rattle.roster_legal.specs.Stepping.{with_next, AreBusyDaysOf, HoldCounted, IsLegalNext, IsNext};

mod base;
mod days_off;
mod leave;
mod limits;
mod overlap;
mod recovery;

use crate::stepping::JudgedSet;
use base::keeps_base;
use days_off::keeps_days_off;
use leave::keeps_leave;
use overlap::no_overlap;
use recovery::keeps_recovery;
use roster_cumulative::ListLimits;
use roster_problem::{DutyList, Problem};
use roster_restrules::rest_ok;
use roster_values::{Limit, Rule, Set};

/// Whether person `k` keeps the rule with the set, whose duty list is `list`.
fn holds(
    problem: &Problem,
    k: usize,
    set: &Set,
    list: &DutyList,
    limits: &mut ListLimits,
    rule: Rule,
) -> bool
    requires person { k < length problem.now.persons }
    requires places { All (λ p. p < length problem.now.pairings) set.now }
    requires list { list.now ≡ duty_list problem.now k set.now }
    requires ordered { IsInOrder list.now }
    requires timed { AreTimed list.now }
    requires limits { LookAt problem.now k set.now limits.old }
    ensures value { IsTrue result ↔ Holds problem.now k set.now (rule_of rule) }
    ensures same { limits.new ≡ limits.old }
{
    match rule {
        Rule::Base => keeps_base(problem, k, set),
        Rule::Overlap => no_overlap(list),
        Rule::Leave => keeps_leave(problem, k, list),
        Rule::Rest => rest_ok(list, problem.home(k)),
        Rule::Recovery => keeps_recovery(problem, k, list),
        Rule::Duty7 => limits.holds(Limit::Duty7),
        Rule::Duty14 => limits.holds(Limit::Duty14),
        Rule::Duty28 => limits.holds(Limit::Duty28),
        Rule::Flight28 => limits.holds(Limit::Flight28),
        Rule::FlightYear => limits.holds(Limit::FlightYear),
        Rule::Flight12 => limits.holds(Limit::Flight12),
        Rule::Days2 => keeps_days_off(problem, k, list),
    }
}

/// The first rule that person `k` breaks with the set, whose duty list is `list`.
pub(crate) fn first_broken_on(
    problem: &Problem,
    k: usize,
    set: &Set,
    list: &DutyList,
) -> Option<Rule>
    requires person { k < length problem.now.persons }
    requires places { All (λ p. p < length problem.now.pairings) set.now }
    requires list { list.now ≡ duty_list problem.now k set.now }
    requires ordered { IsInOrder list.now }
    requires timed { AreTimed list.now }
    ensures { IsFirstBroken problem.now k set.now (option_map rule_of result) }
{
    let mut limits = ListLimits::new(problem.days_of(k), list, problem.person(k));
    for rule in Rule::ALL {
        if !holds(problem, k, set, list, &mut limits, rule) {
            return Some(rule);
        }
    }
    None
}

impl<'a> JudgedSet<'a> {
    /// Whether the rules that count days or minutes, which are those behind Recovery, are kept with the
    /// pairing at place `p`, which makes the busy days those of the word; of a pair or less that is known.
    pub(crate) fn keeps_counted_with(&self, p: usize, busy: u32) -> bool
        requires next { IsNext self.now p }
        requires busy { AreBusyDaysOf self.now.loads.problem self.now.loads.person
            (with_next self.now p).set busy }
        ensures yes { IsTrue result → 2 ≤ length self.now.set
            → HoldCounted self.now.loads.problem self.now.loads.person (with_next self.now p).set }
        ensures no { result ≡ false → ¬ IsLegalNext self.now p }
    {
        let loads = self.loads;
        // The loads are those of the problem that the contract speaks of.
        let _ = loads.problem();
        if !self.has_days_off_with(p, busy) {
            return false;
        }
        self.has_room_for(p)
    }
}
