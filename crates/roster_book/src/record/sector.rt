//! `sector,DUTY,O,OFF,ON`: a flight within a duty.

ghost use Rattle.std.specs.Prelude.{◌≡◌, ◌<◌, ℕ, List, Some, None, true, false, if◌then◌else◌, MatchOption};
ghost use Rattle.std.specs.Prelude.{MatchResult, IfOk};
ghost use Rattle.csv.specs.Records.{fields_of};
ghost use Rattle.roster_model.specs.declared.limits.TheConstants.{MOST_SECTORS};
ghost use Rattle.roster_model.specs.Record.{Record, Command, SectorRecord, minute_of};
ghost use Rattle.roster_model.specs.Faults.{code_of_kind, kind_in};
ghost use Rattle.roster_model.specs.records.Sector.{is_formed, is_operated, is_positioning, letter_in};
ghost use Rattle.roster_model.specs.records.Sector.{off_in, on_in, sector_of};
ghost use Rattle.roster_book.specs.Draft.{IsDraftOf, Takes, contents_of};
ghost use Rattle.roster_book.specs.Flown.{fits_at, sector_count};
ghost use Rattle.roster_book.specs.View as view;

use crate::code::Code;
use crate::draft::Draft;
use crate::forms::field;
use crate::refusal::Refusal;
use csv::ByteRecord;
use roster_instants::read_minute;
use roster_model::limits::MOST_SECTORS;
use roster_problem::Sector;
use roster_values::is_identifier;

/// Whether the letter is that of an operated sector, if it is that of a sector.
fn operates(letter: &[u8]) -> Option<bool>
    ensures { result ≡ (if is_operated letter.now then Some true
        else if is_positioning letter.now then Some false else None) }
{
    match letter {
        b"O" => Some(true),
        b"P" => Some(false),
        _ => None,
    }
}

/// The sector, if all fields are of their forms.
fn formed(fields: &ByteRecord) -> Option<Sector>
    ensures { MatchOption result (is_formed (fields_of fields.now) ≡ false) (λ s.
        (is_formed (fields_of fields.now) ≡ true)
        × (s.operates ≡ is_operated (letter_in (fields_of fields.now)))
        × (s.off ≡ minute_of (off_in (fields_of fields.now)))
        × (s.on ≡ minute_of (on_in (fields_of fields.now)))) }
{
    if !is_identifier(field(fields, 1)) {
        return None;
    }
    Some(Sector {
        operates: operates(field(fields, 2))?,
        off: read_minute(field(fields, 3))?,
        on: read_minute(field(fields, 4))?,
    })
}

impl Draft {
    /// The sector that a record of one gives with the place of its duty, or what is wrong with it.
    #[tactic(auto, using(crate::proofs::SectorTable::flown_position, crate::proofs::Sound::sectors_draft), unfolding(roster_model::specs::Faults::code_of_kind, roster_model::specs::records::Sector::sector_of))]
    fn judge_sector(&self, fields: &ByteRecord) -> Result<(usize, Sector), Code>
        ensures judged { (command : Command) (row : ℕ) (before : List Record)
            → IsDraftOf command row before (contents_of self.now)
            → MatchResult result
            (λ given. (code_of_kind SectorRecord before (fields_of fields.now) ≡ None)
            × (sector_of before (fields_of fields.now)
            ≡ record { duty = Some given.0; sector = given.1 }))
            (λ code. code_of_kind SectorRecord before (fields_of fields.now)
            ≡ Some (view.code_of code)) }
        ensures fits { IfOk result (λ given. fits_at self.now.duties given.0 given.1 ≡ true) }
        ensures room { IfOk result (λ _. sector_count self.now.duties < MOST_SECTORS) }
    {
        if fields.len() != 5 {
            return Err(Code::FieldCount);
        }
        let Some(sector) = formed(fields) else {
            return Err(Code::FieldForm);
        };
        let Some(place) = self.duties.place(field(fields, 1)) else {
            return Err(Code::NotGiven);
        };
        if !self.duties.duty(place).is_in_sequence(sector) {
            return Err(Code::OutOfSequence);
        }
        if self.duties.sectors() >= MOST_SECTORS {
            return Err(Code::NoRoom);
        }
        Ok((place, sector))
    }

    /// Puts the sector that a record of one gives to its duty, or tells what is wrong with it.
    pub(crate) fn take_sector(&mut self, fields: &ByteRecord) -> Result<(), Refusal>
        ensures { (command : Command) (row : ℕ) (before : List Record)
            → IsDraftOf command row before (contents_of self.old)
            → Some SectorRecord ≡ kind_in command (fields_of fields.now)
            → Takes command row before (fields_of fields.now) (contents_of self.new) result }
    {
        let (place, sector) = self.judge_sector(fields)?;
        self.duties.push_sector(place, sector)?;
        Ok(())
    }
}
