//! Sectors.

use roster_instants::Minute;
use std::marker::Model;

/// A flight within a duty.
#[derive(Clone, Copy, PartialEq, Eq)]
pub struct Sector {
    /// Whether the person operates it; else it is for positioning.
    pub operates: bool,
    /// When it begins.
    pub off: Minute,
    /// When it ends.
    pub on: Minute,
}

impl Model for Sector {
    ghost use Rattle.roster_model.specs.records.Duty.{Sector as Entry};

    ghost Value = { Entry };

    ghost view = { λ s. record { operates = s.operates; off = s.off; on = s.on } };

    ghost inverse = { λ s. record { operates = s.operates; off = s.off; on = s.on } };
}
