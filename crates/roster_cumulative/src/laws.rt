//! What follows from nothing but the definitions.

ghost use Rattle.std.specs.Prelude.{◌≡◌, ◌≤◌, ◌↔◌, ◌+◌, ◌*◌, ◌∷◌, ◌++◌, [], ℕ, false, if◌then◌else◌, List};
ghost use Rattle.std.specs.Prelude.{filter, length};
ghost use Rattle.std.specs.List.{range_with_len, sum_by};
ghost use Rattle.std.specs.List.Sorted.{IsStrictlyIncreasing};
ghost use Rattle.roster_model.specs.Calendar.{Days, IsTable};
ghost use Rattle.roster_model.specs.Problem.{Problem};
ghost use Rattle.roster_model.specs.Places.{set_of};
ghost use Rattle.roster_model.specs.Rules.{duty_list, is_among, is_listed, HoldsLimit, Limit};
ghost use Rattle.roster_model.specs.Sums.{duty_flight, month_flight};
ghost use Rattle.roster_model.specs.records.Duty.{Duty};
ghost use Rattle.roster_problem.specs.Duties.{AreFlown, is_of_pairing, is_of_person};
ghost use Rattle.roster_cumulative.specs.Judged.{AreWithin, Sum, sum_of};

use roster_model::limits::MOST_MONTH_MINUTES;
use roster_model::profile::{MOST_FLIGHT_IN_12_MONTHS, MOST_FLIGHT_IN_A_YEAR};

/// The month's flight of a list is that of its duties, and so that of the duties of a problem that a
/// person is listed for with a set. If the sectors of a duty don't overlap, none has more than a
/// month.
pub fn flight_of_duties()
    ensures listed { (days : Days) (list : List Duty)
        → month_flight days list ≡ sum_by (duty_flight days) list }
    ensures of_set { (problem : Problem) (days : Days) (k : ℕ) (set : List ℕ)
        → month_flight days (duty_list problem k set)
        ≡ sum_by (λ duty. if is_listed k set duty.holder then duty_flight days duty else 0)
        problem.duties }
    ensures bound { (days : Days) (list : List Duty) → IsTable days → AreFlown list
        → month_flight days list ≤ length list * MOST_MONTH_MINUTES }
{}

/// A pairing that comes to a set brings the flight of its duties.
pub fn flight_of_one_pairing_more()
    ensures { (problem : Problem) (days : Days) (k p : ℕ) (set : List ℕ)
        → is_among set p ≡ false
        → month_flight days (duty_list problem k (set ++ p ∷ []))
        ≡ month_flight days (duty_list problem k set)
        + month_flight days (filter (is_of_pairing p) problem.duties) }
{}

/// So the flight of a set is that of the person's fixed duties, and of the duties of each pairing.
pub fn flight_of_set()
    ensures { (problem : Problem) (days : Days) (k : ℕ) (set : List ℕ)
        → IsStrictlyIncreasing set
        → month_flight days (duty_list problem k set)
        ≡ month_flight days (filter (is_of_person k) problem.duties)
        + sum_by (λ p. month_flight days (filter (is_of_pairing p) problem.duties)) set }
{}

/// Each duty is on the list of one person at most, whatever the places, legal or not: the lists of
/// the first persons, as many as one likes, have no more duties than there are.
pub fn one_list_of_each_duty()
    ensures { (problem : Problem) (places : List ℕ) (persons : ℕ)
        → sum_by (λ k. length (duty_list problem k (set_of k places))) (range_with_len 0 persons)
        ≤ length problem.duties }
{}

/// A list keeps the limits exactly if no judged sum is more than there may be of it. Of what was flown
/// before the month that is so if neither is too much by itself.
pub fn limits_are_sums()
    ensures { (days : Days) (list : List Duty) (year eleven : ℕ)
        → ((limit : Limit) → HoldsLimit days list year eleven limit)
        ↔ ((year ≤ MOST_FLIGHT_IN_A_YEAR) × (eleven ≤ MOST_FLIGHT_IN_12_MONTHS)
        × AreWithin days list year eleven) }
{}

/// A pairing that comes to a set brings the judged sums of its duties.
pub fn sums_of_one_pairing_more()
    ensures { (problem : Problem) (days : Days) (k p : ℕ) (set : List ℕ) (sum : Sum)
        → is_among set p ≡ false
        → sum_of days (duty_list problem k (set ++ p ∷ [])) sum
        ≡ sum_of days (duty_list problem k set) sum
        + sum_of days (filter (is_of_pairing p) problem.duties) sum }
{}
