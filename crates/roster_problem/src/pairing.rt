//! Pairings.

use roster_values::Name;
use std::marker::Model;

/// A pairing: duties in a row for one person, of which the first reports at the base.
#[derive(Drop)]
pub struct Pairing {
    /// Its own among the pairings.
    pub id: Name,
    /// The place of its base.
    pub base: usize,
    /// What it costs to leave the pairing open, from 0 to `MOST_PENALTY`.
    pub penalty: u32,
    /// The row of the record.
    pub row: usize,
}

impl Model for Pairing {
    ghost use Rattle.roster_model.specs.records.Pairing.{Pairing as Entry};

    ghost Value = { Entry };

    ghost view = { λ p. record { id = p.id; base = p.base; penalty = p.penalty; row = p.row } };
}
