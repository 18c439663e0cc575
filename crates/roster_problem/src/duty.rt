//! Duties.

ghost use Rattle.std.specs.Prelude.{◌≡◌, ◌<◌, ◌++◌, ◌∷◌, [], ℕ, true, is_ok, if◌then◌else◌};
ghost use Rattle.roster_model.specs.records.Sector.{is_in_sequence};
ghost use Rattle.roster_problem.specs.Duties.{is_at, is_of_pairing, is_of_person};
ghost use Rattle.roster_problem.specs.Sectors.{AreSectors};

use crate::sector::Sector;
use roster_instants::Minute;
use roster_values::Name;
use std::alloc::AllocError;
use std::marker::Model;

/// Whose duty it is.
#[derive(Clone, Copy, PartialEq, Eq)]
pub enum Holder {
    /// The pairing at this place.
    Pairing(usize),
    /// The person at this place, for whom it is fixed.
    Person(usize),
}

/// A duty, from its report to its later release. Its sectors lie in it, and each begins no earlier
/// than the one before it ends. The type keeps that.
#[derive(Drop)]
pub struct Duty {
    /// Its own among the duties.
    pub id: Name,
    /// Whose duty it is.
    pub holder: Holder,
    /// Where it reports; it needn't be a base of the book.
    pub station: Name,
    /// When it begins.
    pub report: Minute,
    /// When it ends. Post-flight duty lies before it.
    pub release: Minute,
    /// Its sectors, in the order of their records.
    pub sectors: Vec<Sector>,
    /// The row of the record.
    pub row: usize,
}

impl Model for Duty {
    ghost use Rattle.std.specs.Prelude.{◌<◌};
    ghost use Rattle.roster_model.specs.records.Duty.{Duty as Entry};

    ghost Value = { Entry };

    ghost use Rattle.roster_problem.specs.View.{holder_of};

    ghost view = { λ d. record {
      id = d.id;
      holder = holder_of d.holder;
      station = d.station;
      report = d.report;
      release = d.release;
      sectors = d.sectors.items;
      row = d.row;
    } };

    ghost use Rattle.roster_problem.specs.Sectors.{AreSectors};

    ghost invariant = { λ d. (d.report < d.release)
        × AreSectors d.report d.release d.sectors.items };
}

impl Duty {
    /// Whether the sector ends after it begins, lies in the duty, and begins no earlier than the
    /// duty's last sector ends.
    pub fn is_in_sequence(&self, sector: Sector) -> bool
        ensures { result ≡ is_in_sequence self.now sector.off sector.on }
    {
        sector.off < sector.on
            && self.report <= sector.off
            && sector.on <= self.release
            && self.sectors.last().is_none_or(|last| last.on <= sector.off)
    }

    /// Puts a sector behind its others, after which it is flown.
    pub fn push_sector(&mut self, sector: Sector) -> Result<(), AllocError>
        requires { is_in_sequence self.old sector.off sector.on ≡ true }
        ensures { self.new ≡ (if is_ok result
            then record self.old { sectors = self.old.sectors ++ sector ∷ [] } else self.old) }
    {
        self.sectors.push(sector)?;
        Ok(())
    }

    /// The place of the pairing whose duty it is, if it is one's.
    pub(crate) fn pairing(&self) -> Option<usize>
        ensures place { (p : ℕ) → is_of_pairing p self.now ≡ is_at p result }
        ensures timed { self.now.report < self.now.release }
        ensures flown { AreSectors self.now.report self.now.release self.now.sectors }
    {
        match self.holder {
            Holder::Pairing(p) => Some(p),
            Holder::Person(_) => None,
        }
    }

    /// The place of the person for whom it is fixed, if it is.
    pub(crate) fn person(&self) -> Option<usize>
        ensures { (k : ℕ) → is_of_person k self.now ≡ is_at k result }
    {
        match self.holder {
            Holder::Pairing(_) => None,
            Holder::Person(k) => Some(k),
        }
    }
}
