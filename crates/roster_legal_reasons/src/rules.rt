//! What breaks each rule, as a reason. Each rule but the limits has a file that tells what first breaks it.
//!
//! A duty is named by its place on the duty list of the person with the set, from 0, and a day by its
//! number in the window of the home base, from 0: the month begins with day `DAYS_BEFORE`.

ghost use Rattle.std.specs.Prelude.{◌≡◌, ◌<◌, ◌↔◌, ℕ, List, All, IsTrue, MatchOption, length};
ghost use Rattle.roster_model.specs.Problem.{home_of, year_of, eleven_of};
ghost use Rattle.roster_model.specs.Rules.{duty_list, Holds, LimitRule};
ghost use Rattle.roster_problem.specs.Duties.{AreTimed, IsInOrder};
ghost use Rattle.roster_values.specs.View.{limit_of, rule_of};
ghost use Rattle.roster_legal_reasons.specs.Bounds.{bound_of, KeepsBound};
ghost use Rattle.roster_legal_reasons.specs.Reasons.{IsReasonOn, IsTold, rule_told};

mod base;
mod days_off;
mod leave;
mod overlap;
mod recovery;
mod rest;

use crate::amounts::{Amount, first_over};
use base::first_off_base;
pub use days_off::FewDaysOff;
use days_off::few_days_off;
pub use leave::DutyInLeave;
use leave::first_duty_in_leave;
pub use overlap::SharedDuties;
use overlap::first_overlap;
pub use recovery::LongBlock;
use recovery::first_long_block;
pub use rest::ShortRest;
use rest::first_short_rest;
use roster_problem::{DutyList, Problem};
use roster_values::{Limit, Rule, Set};

/// What breaks a rule.
#[derive(Clone, Copy, PartialEq, Eq)]
pub enum Reason {
    /// A pairing of another base, by its place in the book.
    Base(usize),
    /// Duties that overlap.
    Overlap(SharedDuties),
    /// A duty in a leave.
    Leave(DutyInLeave),
    /// Too little rest.
    Rest(ShortRest),
    /// Too long without a recurrent rest.
    Recovery(LongBlock),
    /// Too much duty or flight.
    Limit(Limit, Amount),
    /// Too few days off.
    DaysOff(FewDaysOff),
}

impl Reason {
    /// The rule that it breaks.
    pub fn rule(self) -> Rule
        ensures { rule_of result ≡ rule_told self }
    {
        match self {
            Reason::Base(_) => Rule::Base,
            Reason::Overlap(_) => Rule::Overlap,
            Reason::Leave(_) => Rule::Leave,
            Reason::Rest(_) => Rule::Rest,
            Reason::Recovery(_) => Rule::Recovery,
            Reason::Limit(limit, _) => limit.rule(),
            Reason::DaysOff(_) => Rule::Days2,
        }
    }

    /// Whether it speaks of the duty at place `i` of the list.
    pub fn touches(self, i: usize) -> bool
        ensures { IsTrue result ↔ IsTold self i }
    {
        match self {
            Reason::Overlap(shared) => i == shared.first || i == shared.second,
            Reason::Leave(told) => i == told.duty,
            Reason::Rest(short) => short.before <= i && i - short.before <= 1,
            Reason::Recovery(block) => block.first <= i && i <= block.last,
            Reason::Base(_) | Reason::Limit(_, _) | Reason::DaysOff(_) => false,
        }
    }
}

/// What breaks the limit, as a reason.
fn limit_reason(problem: &Problem, k: usize, list: &DutyList, limit: Limit) -> Option<Reason>
    requires { k < length problem.now.persons }
    ensures { MatchOption result
        (KeepsBound (home_of problem.now k).days list.now
        (bound_of (year_of problem.now k) (eleven_of problem.now k) (limit_of limit)))
        (λ reason. (set : List ℕ)
        → IsReasonOn problem.now k set list.now (LimitRule (limit_of limit)) reason) }
{
    let amount = first_over(problem, k, list, limit)?;
    Some(Reason::Limit(limit, amount))
}

/// What breaks the rule first, if person `k` breaks it with the set, whose duty list is `list`.
pub(crate) fn reason_for(
    problem: &Problem,
    k: usize,
    set: &Set,
    list: &DutyList,
    rule: Rule,
) -> Option<Reason>
    requires person { k < length problem.now.persons }
    requires places { All (λ p. p < length problem.now.pairings) set.now }
    requires list { list.now ≡ duty_list problem.now k set.now }
    requires ordered { IsInOrder list.now }
    requires timed { AreTimed list.now }
    ensures { MatchOption result (Holds problem.now k set.now (rule_of rule))
        (IsReasonOn problem.now k set.now list.now (rule_of rule)) }
{
    match rule {
        Rule::Base => Some(Reason::Base(first_off_base(problem, k, set)?)),
        Rule::Overlap => Some(Reason::Overlap(first_overlap(list)?)),
        Rule::Leave => Some(Reason::Leave(first_duty_in_leave(problem, k, list)?)),
        Rule::Rest => Some(Reason::Rest(first_short_rest(list, problem.home(k))?)),
        Rule::Recovery => Some(Reason::Recovery(first_long_block(problem.days_of(k), list)?)),
        Rule::Duty7 => limit_reason(problem, k, list, Limit::Duty7),
        Rule::Duty14 => limit_reason(problem, k, list, Limit::Duty14),
        Rule::Duty28 => limit_reason(problem, k, list, Limit::Duty28),
        Rule::Flight28 => limit_reason(problem, k, list, Limit::Flight28),
        Rule::FlightYear => limit_reason(problem, k, list, Limit::FlightYear),
        Rule::Flight12 => limit_reason(problem, k, list, Limit::Flight12),
        Rule::Days2 => Some(Reason::DaysOff(few_days_off(problem.days_of(k), list)?)),
    }
}
