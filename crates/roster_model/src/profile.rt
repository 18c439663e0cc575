//! The numbers of the rules: this project's profile of ORO.FTL. Each number stands only here, and
//! definitions and code cite it, but for the night's hours: 22:00 and 08:00 are those of the tables of
//! days (`specs/Zone.antt`).

/// The least rest before a duty that reports at the home base, in minutes: 12 hours.
/// (ORO.FTL.235(a)(1).)
pub const REST_AT_HOME: u32 = 720;

/// The least rest before a duty that reports elsewhere, in minutes: 10 hours. (ORO.FTL.235(b).)
pub const REST_AWAY: u32 = 600;

/// The length of a recurrent rest, in minutes, at least: 36 hours. (ORO.FTL.235(d).)
pub const RECURRENT_REST: u32 = 2160;

/// The local nights that a recurrent rest holds, at least. (ORO.FTL.235(d).)
pub const RECURRENT_NIGHTS: usize = 2;

/// The minutes of a local night that have to be rest: 8 hours. (ORO.FTL.105.)
pub const NIGHT_REST: u32 = 480;

/// The time from the end of a recurrent rest to the start of the next, in minutes, at most: 168
/// hours. (ORO.FTL.235(d).)
pub const BETWEEN_RECURRENT_RESTS: u32 = 10_080;

/// The days of a short run. (ORO.FTL.210(a)(1).)
pub const SHORT_RUN: usize = 7;

/// The days of a middle run. (ORO.FTL.210(a)(2).)
pub const MIDDLE_RUN: usize = 14;

/// The days of a long run. (ORO.FTL.210(a)(3), (b)(1).)
pub const LONG_RUN: usize = 28;

/// The duty of 7 days in a row, in minutes, at most: 60 hours. (ORO.FTL.210(a)(1).)
pub const MOST_DUTY_IN_7_DAYS: u64 = 3_600;

/// The duty of 14 days in a row, in minutes, at most: 110 hours. (ORO.FTL.210(a)(2).)
pub const MOST_DUTY_IN_14_DAYS: u64 = 6_600;

/// The duty of 28 days in a row, in minutes, at most: 190 hours. (ORO.FTL.210(a)(3).)
pub const MOST_DUTY_IN_28_DAYS: u64 = 11_400;

/// The flight of 28 days in a row, in minutes, at most: 100 hours. (ORO.FTL.210(b)(1).)
pub const MOST_FLIGHT_IN_28_DAYS: u64 = 6_000;

/// The flight of a calendar year, in minutes, at most: 900 hours. (ORO.FTL.210(b)(2).)
pub const MOST_FLIGHT_IN_A_YEAR: u64 = 54_000;

/// The flight of 12 calendar months in a row, in minutes, at most: 1000 hours. (ORO.FTL.210(b)(3).)
pub const MOST_FLIGHT_IN_12_MONTHS: u64 = 60_000;
