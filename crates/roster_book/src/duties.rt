//! The duties of the records taken so far.

ghost use Rattle.std.specs.Prelude.{◌≡◌, ◌<◌, ◌++◌, ◌∷◌, [], Some, IfSome, OnOk, length, slice_get, true};
ghost use Rattle.roster_model.specs.Record.{place_named};
ghost use Rattle.roster_book.specs.Flown.{fits_at, sector_count, with_sector_at};

use crate::named::{key_of, place_by_key};
use roster_model::limits::MOST_SECTORS;
use roster_problem::{Duty, Sector};
use std::alloc::{AllocError, Global};
use std::marker::Model;

/// Duties in the order of their records, each with its sectors so far.
#[derive(Drop)]
pub(crate) struct Duties {
    duties: Vec<Duty>,
    // The keys of their names, which a search for a name reads in place of the duties.
    keys: Vec<u64>,
    // The sectors of them all, counted.
    sectors: usize,
}

impl Model for Duties {
    ghost use Rattle.std.specs.Prelude.{◌≡◌, List};
    ghost use Rattle.roster_model.specs.records.Duty.{Duty as Entry};
    ghost use Rattle.roster_book.specs.Flown.{sector_count};
    ghost use Rattle.roster_book.specs.Keys.{keys_of};

    ghost Value = { List Entry };

    ghost view = { λ d. d.duties.items };

    ghost invariant = { λ d. (d.sectors ≡ sector_count d.duties.items)
        × (d.keys.items ≡ keys_of (λ duty. duty.id) d.duties.items) };
}

impl Duties {
    /// No duty.
    #[tactic(auto, using(crate::proofs::SectorTable::sector_count_none))]
    pub(crate) fn new(alloc: Global) -> Duties
        ensures { result ≡ [] }
    {
        Duties {
            duties: Vec::new(alloc),
            keys: Vec::new(alloc),
            sectors: 0,
        }
    }

    /// The duties in order.
    pub(crate) fn as_slice(&self) -> &[Duty]
        ensures { result.now ≡ self.now }
    {
        self.duties.as_slice()
    }

    /// The duty at the place.
    pub(crate) fn duty(&self, place: usize) -> &Duty
        requires { place < length self.now }
        ensures { slice_get self.now place ≡ Some result.now }
    {
        &self.duties[place]
    }

    /// The duties in order.
    pub(crate) fn into_vec(self) -> Vec<Duty>
        ensures { result.items ≡ self }
    {
        self.duties
    }

    /// How many sectors they have.
    pub(crate) fn sectors(&self) -> usize
        ensures { result ≡ sector_count self.now }
    {
        self.sectors
    }

    /// The place of the duty with the name.
    pub(crate) fn place(&self, name: &[u8]) -> Option<usize>
        ensures value { result ≡ place_named (λ duty. duty.id) name.now self.now }
        ensures within { IfSome result (λ place. place < length self.now) }
    {
        place_by_key(&self.keys, &self.duties, name)
    }

    /// Puts a duty without a sector behind the others.
    pub(crate) fn push(&mut self, duty: Duty) -> Result<(), AllocError>
        requires { duty.sectors ≡ [] }
        ensures { OnOk result (self.new ≡ self.old ++ duty ∷ []) }
    {
        let key = key_of(duty.id.as_bytes());
        self.keys.reserve(1)?;
        self.duties.push(duty)?;
        self.keys.push_reserved(key);
        Ok(())
    }

    /// Puts a sector behind the others of the duty at the place.
    pub(crate) fn push_sector(&mut self, place: usize, sector: Sector) -> Result<(), AllocError>
        requires fits { fits_at self.old place sector ≡ true }
        requires room { sector_count self.old < MOST_SECTORS }
        ensures { OnOk result (self.new ≡ with_sector_at self.old (Some place) sector) }
    {
        self.duties[place].push_sector(sector)?;
        self.sectors += 1;
        Ok(())
    }
}
