//! The rules of clocks, and where zone files have them.

ghost use Rattle.std.specs.Prelude.{◌≡◌};
ghost use Rattle.std.specs.List.{list_all};
ghost use Rattle.roster_desk_times.specs.Zones as zones;

use jiff::tz::TimeZone;
use std::str;

/// How a zone file begins, and the first version whose files end with a rule.
const MAGIC: &[u8] = b"TZif";

const LEAST_VERSION: u8 = b'2';

/// Whether the byte stands in names of zones.
fn is_of_names(byte: u8) -> bool
    ensures { result ≡ zones.is_of_names byte }
{
    byte.is_ascii_alphanumeric() || b"/_-+".contains(&byte)
}

/// Whether each byte of the text stands in names of zones.
fn are_of_names(text: &[u8]) -> bool
    ensures { result ≡ list_all zones.is_of_names text.now }
{
    text.iter().all(|byte| is_of_names(*byte))
}

/// Whether something stands between any two slashes, before the first and behind the last one.
fn has_no_empty_part(text: &[u8]) -> bool
    ensures { result ≡ zones.has_no_empty_part text.now }
{
    text.split(|byte| *byte == b'/')
        .all(|part| !part.is_empty())
}

/// Whether the text may be the name of a zone, as `Europe/Zurich`. It never leads out of a folder of zone
/// files.
pub fn is_zone_name(text: &[u8]) -> bool
    ensures { result ≡ zones.is_zone_name text.now }
{
    are_of_names(text) && has_no_empty_part(text)
}

/// The clocks whose rule the text is.
pub fn read_zone(text: &[u8]) -> Option<TimeZone<'static>> {
    TimeZone::posix(str::from_utf8(text).ok()?).ok()
}

/// The rule with which the bytes of a zone file end: that of all times behind its table.
pub fn rule_in(bytes: &[u8]) -> Option<&[u8]> {
    let version = bytes.strip_prefix(MAGIC)?.first()?;
    if *version < LEAST_VERSION {
        return None;
    }
    let rule = bytes
        .strip_suffix(b"\n")?
        .rsplit(|byte| *byte == b'\n')
        .next()?;
    if rule.is_empty() {
        return None;
    }
    Some(rule)
}
