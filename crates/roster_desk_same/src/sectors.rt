//! The sectors of duties.

ghost use Rattle.std.specs.Prelude.{◌≡◌, IsTrue};

use roster_problem::Sector;

/// Whether two sectors are the same.
fn is_same_sector(a: Sector, b: Sector) -> bool
    ensures { IsTrue result → a ≡ b }
{
    a.operates == b.operates && a.off == b.off && a.on == b.on
}

/// Whether two duties have the same sectors.
pub fn are_same_sectors(before: &[Sector], after: &[Sector]) -> bool
    ensures { IsTrue result → after.now ≡ before.now }
{
    match before.split_first() {
        None => after.is_empty(),
        Some((a, others)) => match after.split_first() {
            None => false,
            Some((b, rest)) => is_same_sector(*b, *a) && are_same_sectors(others, rest),
        },
    }
}
