//! The records so far, and the rows that they come from.

use roster_desk_fault::Kind;
use roster_desk_sheets::{Column, Mistakes, Place, Records, Table};
use std::alloc::{AllocError, Global};

/// The kinds whose records have a limit, and the tables that they come from.
const LIMITED: [(Kind, Table); 7] = [
    (Kind::Base, Table::Bases),
    (Kind::Crew, Table::Crew),
    (Kind::Pairing, Table::Pairings),
    (Kind::Duty, Table::Duties),
    (Kind::Sector, Table::Sectors),
    (Kind::Leave, Table::Leave),
    (Kind::Cost, Table::Wishes),
];

/// What a record is, and the row that it comes from.
#[derive(Clone, Copy)]
pub(crate) struct Origin {
    pub(crate) kind: Kind,
    pub(crate) place: Place,
}

/// The records so far.
#[derive(Drop)]
pub(crate) struct Draft {
    pub(crate) alloc: Global,
    records: Records,
    origins: Vec<Origin>,
}

/// A book, and what each of its records is.
#[derive(Drop)]
pub(crate) struct Drafted {
    pub(crate) text: Vec<u8>,
    pub(crate) origins: Vec<Origin>,
}

impl Draft {
    /// No record.
    pub(crate) fn new(alloc: Global) -> Draft {
        Draft {
            alloc,
            records: Records::new(alloc),
            origins: Vec::new(alloc),
        }
    }

    /// Puts a record behind the others. Its kind is the word of the first field.
    pub(crate) fn push(
        &mut self,
        kind: Kind,
        place: Place,
        fields: &[&[u8]],
    ) -> Result<(), AllocError> {
        self.records.push(fields)?;
        self.origins.push(Origin { kind, place })?;
        Ok(())
    }

    /// How many records are of the kind.
    fn count(&self, kind: Kind) -> usize {
        self.origins
            .iter()
            .filter(|origin| origin.kind == kind)
            .count()
    }

    /// Tells of which kinds there are more records than a book may have.
    pub(crate) fn tell_limits(&self, mistakes: &mut Mistakes) -> Result<(), AllocError> {
        for (kind, table) in LIMITED {
            let count = self.count(kind);
            let Some(most) = kind.most() else {
                continue;
            };
            if count > most {
                let has = count.to_string(self.alloc)?;
                let word = kind.word();
                let wanted = format!(in self.alloc;
                    "{most} records of {word} at most: --base and --rank take a part"
                )?;
                let place = Place {
                    table,
                    line: 1,
                    column: Column::Rows,
                };
                mistakes.push(self.alloc, place, has.as_bytes(), wanted.as_str())?;
            }
        }
        Ok(())
    }

    /// The book.
    pub(crate) fn finish(self) -> Result<Drafted, AllocError> {
        let Draft {
            alloc: _,
            records,
            origins,
        } = self;
        Ok(Drafted {
            text: records.finish()?,
            origins,
        })
    }
}
