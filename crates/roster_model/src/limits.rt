//! The limits of a book. Each number stands only here: definitions and code cite it.

/// The bytes of an identifier, at most.
pub const MOST_NAME_BYTES: usize = 16;

/// The digits of a number, at most.
pub const MOST_DIGITS: usize = 12;

/// The bytes of a zone text, at most.
pub const MOST_ZONE_BYTES: usize = 64;

/// The bases of a book, at most.
pub const MOST_BASES: usize = 16;

/// The persons of a book, at most.
pub const MOST_PERSONS: usize = 128;

/// The pairings of a book, at most.
pub const MOST_PAIRINGS: usize = 512;

/// The duties of a book, at most.
pub const MOST_DUTIES: usize = 4096;

/// The sectors of a book, at most.
pub const MOST_SECTORS: usize = 16384;

/// The leaves of a book, at most.
pub const MOST_LEAVES: usize = 1024;

/// The costs of a book, at most.
pub const MOST_COSTS: usize = 16384;

/// The steps of a book, at most.
pub const MOST_STEPS: usize = 4096;

/// The records of a book without a fault, at most: a period, a weight, of each pairing an assignment,
/// and of each other kind its limit.
pub const MOST_RECORDS: usize = 1
    + 1
    + MOST_BASES
    + MOST_PERSONS
    + MOST_PAIRINGS
    + MOST_DUTIES
    + MOST_SECTORS
    + MOST_LEAVES
    + MOST_COSTS
    + MOST_PAIRINGS
    + MOST_STEPS;

/// The workers that search together, at most.
pub const MOST_WORKERS: u32 = 64;

/// The number of the last worker: they are counted from 0.
pub const LAST_WORKER: u32 = MOST_WORKERS - 1;

/// The number of a step besides that of its worker, at most.
pub const MOST_STEP_NUMBER: u32 = 1_000_000;

/// The legal sets of a person, at most.
pub const MOST_LINES: usize = 200_000;

/// The minutes of a target, and of what was flown before the month, at most.
pub const MOST_MINUTES: u32 = 60_000;

/// What it costs to leave a pairing open, at most.
pub const MOST_PENALTY: u32 = 1_000_000_000;

/// What it costs that a person flies a pairing, at most, and what it saves, at most.
pub const MOST_UNITS: u32 = 1_000_000_000;

/// What it costs that a person's flight misses the target by a minute, at most.
pub const MOST_WEIGHT: u32 = 1_000_000_000;

/// The first year of an instant.
pub const FIRST_YEAR: u16 = 1970;

/// The last year of an instant.
pub const LAST_YEAR: u16 = 9998;

/// The first year of a month: its window begins in the year before, at the earliest.
pub const FIRST_MONTH_YEAR: u16 = FIRST_YEAR + 1;

/// The last year of a month: its window ends in the year after, at the latest.
pub const LAST_MONTH_YEAR: u16 = LAST_YEAR - 1;

/// The last instant of all, in minutes since 1970-01-01T00:00Z: none of the years that are read comes
/// near it.
pub const LAST_INSTANT: u64 = 5_000_000_000;

/// The days of the window before the month's first day.
pub const DAYS_BEFORE: usize = 35;

/// The days of the window after the month's last day.
pub const DAYS_AFTER: usize = 14;

/// The days of a window, at most: those round a month of 31 days.
pub const MOST_DAYS: usize = DAYS_BEFORE + 31 + DAYS_AFTER;

/// The minutes of the month at a base, at most: those of 31 days, and of 52 hours for its clocks, which
/// may be 26 hours ahead of UTC as it begins and 26 hours behind as it ends.
pub const MOST_MONTH_MINUTES: usize = (31 * 24 + 52) * 60;
