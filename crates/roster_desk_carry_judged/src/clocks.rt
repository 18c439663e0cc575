//! Whether the clocks of a base are the same in two months.

ghost use Rattle.std.specs.Prelude.{◌≡◌, ◌<◌, IfOk, IfSome, IsTrue, Ok, length};
ghost use Rattle.roster_model.specs.Zone.{days_of_zone};
ghost use Rattle.roster_desk_carry_judged.specs.Carried.{HasZone};

use roster_desk_same::are_same_days;
use roster_instants::{BaseDays, Period, ZoneFault};
use roster_problem::Problem;
use roster_values::Name;
use std::alloc::{AllocError, Global};

/// A base, and the rule of its clocks.
#[derive(Drop)]
pub struct BaseZone {
    /// The base's name.
    pub base: Name,
    /// The rule, as a book writes it.
    pub rule: String,
}

/// The days that clocks with the rule have round the month, if they have some.
fn days_by(alloc: Global, rule: &str, period: Period) -> Result<Option<BaseDays>, AllocError>
    ensures { IfOk result (λ found. IfSome found
        (λ days. days_of_zone period rule.now ≡ Ok days)) }
{
    match BaseDays::build(alloc, rule, period) {
        Ok(days) => Ok(Some(days)),
        Err(ZoneFault::Memory) => Err(AllocError),
        Err(_) => Ok(None),
    }
}

/// Whether these are the days that clocks with the rule have round the month.
fn has_days(alloc: Global, rule: &str, period: Period, days: &BaseDays) -> Result<bool, AllocError>
    ensures { IfOk result (λ has. IsTrue has → days_of_zone period rule.now ≡ Ok days.now) }
{
    let Some(found) = days_by(alloc, rule, period)? else {
        return Ok(false);
    };
    Ok(are_same_days(&found, days))
}

/// Whether the home base of person `k` has clocks with the rule in both months.
pub(crate) fn has_zone(
    alloc: Global,
    rule: &str,
    book: &Problem,
    next: &Problem,
    k: usize,
) -> Result<bool, AllocError>
    requires book { k < length book.now.persons }
    requires next { k < length next.now.persons }
    ensures { IfOk result (λ has. IsTrue has → HasZone book.now next.now k rule.now) }
{
    if !has_days(alloc, rule, book.period(), book.days_of(k))? {
        return Ok(false);
    }
    has_days(alloc, rule, next.period(), next.days_of(k))
}
