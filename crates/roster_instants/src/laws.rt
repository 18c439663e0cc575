//! Laws of the definition of local days. They have no code.

ghost use Rattle.roster_instants.specs.Laws.{IsCompatible, HasCompatibleDays, IsPlainAtUtc};

/// The instants of a window, by which a zone text is judged, are those of `jiff`'s compatible
/// conversion in each zone that the text stands for.
pub fn compatible_instants()
    ensures { IsCompatible }
{}

/// So are the instants of the days that a zone text stands for.
pub fn compatible_days()
    ensures { HasCompatibleDays }
{}

/// `UTC0` has the days of UTC.
pub fn plain_at_utc()
    ensures { IsPlainAtUtc }
{}
