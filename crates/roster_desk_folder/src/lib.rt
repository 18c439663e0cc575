//! What the tables of a folder say, as values. What is wrong with a cell is told, and the values go on
//! without it.
//!
//! - `files`: the files of a folder, and the zone files that its tables name
//! - `cells`: what stands in cells
//! - `stations`: bases and other stations, with their clocks
//! - `crew`: persons
//! - `pairings`: pairings
//! - `duties`: the duties of pairings, and their sectors
//! - `activities`: what persons do besides pairings, and their leave
//! - `flights`: the sectors of what persons do besides pairings
//! - `wishes`: what persons wish, and what they have flown
//! - `tables`: all tables
#![tactic(auto)]

mod activities;
mod cells;
mod crew;
mod duties;
mod files;
mod flights;
mod pairings;
mod stations;
mod tables;
mod wishes;

pub use activities::{Activity, Leave, When};
pub use cells::Cells;
pub use crew::Person;
pub use duties::{Duty, Sector};
pub use files::{Files, Sheets, TableFile, ZoneFile, read_sheets, zone_names};
pub use pairings::Pairing;
pub use stations::{Station, Stations};
pub use tables::{Tables, read_tables};
pub use wishes::{Flown, Wanted, Wish};
