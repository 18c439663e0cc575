//! The days of bases.

ghost use Rattle.std.specs.Prelude.{◌≡◌, IsTrue};

use roster_instants::BaseDays;

/// Whether two bases have the same days.
pub fn are_same_days(a: &BaseDays, b: &BaseDays) -> bool
    ensures { IsTrue result → a.now ≡ b.now }
{
    if a.days() != b.days() || a.month_days() != b.month_days() {
        return false;
    }
    let days = a.days();
    if a.mid(days) != b.mid(days) {
        return false;
    }
    for i in 0..days {
        if a.mid(i) != b.mid(i) || a.eight(i) != b.eight(i) || a.ten(i) != b.ten(i) {
            return false;
        }
    }
    true
}
