//! The kinds of records, and the names and forms of their fields.

ghost use Rattle.std.specs.Prelude.{◌≡◌, map};
ghost use Rattle.roster_model.specs.Record.{kinds_of, word_of, Check};
ghost use Rattle.roster_desk_fault.specs.Kinds.{kind_of, most_of};
ghost use Rattle.roster_desk_fault.specs.declared.kinds.TheConstants.Kind.{ALL};

use roster_model::limits::{
    MOST_BASES, MOST_COSTS, MOST_DUTIES, MOST_LEAVES, MOST_MINUTES, MOST_PAIRINGS, MOST_PENALTY,
    MOST_PERSONS, MOST_SECTORS, MOST_UNITS, MOST_WEIGHT,
};

/// What a record is about.
#[derive(Clone, Copy, PartialEq, Eq)]
pub enum Kind {
    /// The month.
    Period,
    /// The cost of a minute by which a target is missed.
    Weight,
    /// A base.
    Base,
    /// A person.
    Crew,
    /// A pairing.
    Pairing,
    /// A duty of a pairing, or a fixed one.
    Duty,
    /// A sector of a duty.
    Sector,
    /// Leave of a person.
    Leave,
    /// What it costs that a person flies a pairing.
    Cost,
    /// Who flies a pairing.
    Assign,
}

/// The form of a field.
#[derive(Clone, Copy, PartialEq, Eq)]
pub(crate) enum Form {
    /// A month.
    Month,
    /// A name.
    Identifier,
    /// A name, or `-` for nobody.
    OrNobody,
    /// The letter of a duty.
    DutyLetter,
    /// The letter of a sector.
    SectorLetter,
    /// An instant in UTC.
    Instant,
    /// A zone text.
    Zone,
    /// A number from 0 to this one.
    Amount(u32),
    /// A number no further from 0 than this one.
    Units(u32),
}

/// A field of a kind: its name in the description of the format, and its form.
type Field = (&'static str, Form);

/// What the format says of the records of a kind.
#[derive(Clone, Copy)]
struct Shape {
    /// The word with which they begin.
    word: &'static str,
    /// How they are written.
    layout: &'static str,
    /// The fields behind the word. Of a duty the third one may also be a person.
    fields: &'static [Field],
    /// How many there may be; `None` if the kind has no limit of its own.
    most: Option<usize>,
}

const PERIOD: Shape = Shape {
    word: "period",
    layout: "period,YYYY-MM",
    fields: &[("YYYY-MM", Form::Month)],
    most: Some(1),
};

const WEIGHT: Shape = Shape {
    word: "weight",
    layout: "weight,W",
    fields: &[("W", Form::Amount(MOST_WEIGHT))],
    most: Some(1),
};

const BASE: Shape = Shape {
    word: "base",
    layout: "base,ID,ZONE",
    fields: &[("ID", Form::Identifier), ("ZONE", Form::Zone)],
    most: Some(MOST_BASES),
};

const CREW: Shape = Shape {
    word: "crew",
    layout: "crew,ID,BASE,TARGET,YEAR,ELEVEN",
    fields: &[
        ("ID", Form::Identifier),
        ("BASE", Form::Identifier),
        ("TARGET", Form::Amount(MOST_MINUTES)),
        ("YEAR", Form::Amount(MOST_MINUTES)),
        ("ELEVEN", Form::Amount(MOST_MINUTES)),
    ],
    most: Some(MOST_PERSONS),
};

const PAIRING: Shape = Shape {
    word: "pairing",
    layout: "pairing,ID,BASE,PENALTY",
    fields: &[
        ("ID", Form::Identifier),
        ("BASE", Form::Identifier),
        ("PENALTY", Form::Amount(MOST_PENALTY)),
    ],
    most: Some(MOST_PAIRINGS),
};

const DUTY: Shape = Shape {
    word: "duty",
    layout: "duty,ID,P,PAIRING,STATION,REPORT,RELEASE or duty,ID,C,PERSON,STATION,REPORT,RELEASE",
    fields: &[
        ("ID", Form::Identifier),
        ("P or C", Form::DutyLetter),
        ("PAIRING", Form::Identifier),
        ("STATION", Form::Identifier),
        ("REPORT", Form::Instant),
        ("RELEASE", Form::Instant),
    ],
    most: Some(MOST_DUTIES),
};

const SECTOR: Shape = Shape {
    word: "sector",
    layout: "sector,DUTY,O,OFF,ON or sector,DUTY,P,OFF,ON",
    fields: &[
        ("DUTY", Form::Identifier),
        ("O or P", Form::SectorLetter),
        ("OFF", Form::Instant),
        ("ON", Form::Instant),
    ],
    most: Some(MOST_SECTORS),
};

const LEAVE: Shape = Shape {
    word: "leave",
    layout: "leave,PERSON,FROM,TO",
    fields: &[
        ("PERSON", Form::Identifier),
        ("FROM", Form::Instant),
        ("TO", Form::Instant),
    ],
    most: Some(MOST_LEAVES),
};

const COST: Shape = Shape {
    word: "cost",
    layout: "cost,PERSON,PAIRING,UNITS",
    fields: &[
        ("PERSON", Form::Identifier),
        ("PAIRING", Form::Identifier),
        ("UNITS", Form::Units(MOST_UNITS)),
    ],
    most: Some(MOST_COSTS),
};

const ASSIGN: Shape = Shape {
    word: "assign",
    layout: "assign,PAIRING,PERSON",
    fields: &[("PAIRING", Form::Identifier), ("PERSON", Form::OrNobody)],
    most: None,
};

impl Kind {
    /// All kinds that a book for a check may have, in the order in which a book is told.
    pub const ALL: [Kind; 10] = [
        Kind::Period,
        Kind::Weight,
        Kind::Base,
        Kind::Crew,
        Kind::Pairing,
        Kind::Duty,
        Kind::Sector,
        Kind::Leave,
        Kind::Cost,
        Kind::Assign,
    ];

    /// What the format says of it.
    fn shape(self) -> Shape
        ensures word { result.word.now ≡ word_of (kind_of self) }
        ensures most { result.most ≡ most_of (kind_of self) }
    {
        match self {
            Kind::Period => PERIOD,
            Kind::Weight => WEIGHT,
            Kind::Base => BASE,
            Kind::Crew => CREW,
            Kind::Pairing => PAIRING,
            Kind::Duty => DUTY,
            Kind::Sector => SECTOR,
            Kind::Leave => LEAVE,
            Kind::Cost => COST,
            Kind::Assign => ASSIGN,
        }
    }

    /// The kind that the word names.
    pub(crate) fn read(word: &[u8]) -> Option<Kind> {
        for &kind in &Kind::ALL {
            if kind.word().as_bytes() == word {
                return Some(kind);
            }
        }
        None
    }

    /// The word that names the kind.
    pub fn word(self) -> &'static str
        ensures { result.now ≡ word_of (kind_of self) }
    {
        self.shape().word
    }

    /// How the record of the kind is written.
    pub(crate) fn layout(self) -> &'static str {
        self.shape().layout
    }

    /// How many fields a record of the kind has, the kind counted.
    pub(crate) fn columns(self) -> usize {
        self.shape().fields.len().saturating_add(1)
    }

    /// How many records of the kind there may be; `None` if the kind has no limit of its own.
    pub fn most(self) -> Option<usize>
        ensures { result ≡ most_of (kind_of self) }
    {
        self.shape().most
    }

    /// The field at a place from 1, if the kind has it.
    fn field(self, i: usize) -> Option<Field> {
        self.shape().fields.get(i.checked_sub(1)?).copied()
    }

    /// The name of the field at a place from 1, if the kind has it.
    pub(crate) fn name(self, i: usize) -> Option<&'static str> {
        Some(self.field(i)?.0)
    }

    /// The form of the field at a place from 1, if the kind has it.
    pub(crate) fn form(self, i: usize) -> Option<Form> {
        Some(self.field(i)?.1)
    }
}

/// `Kind::ALL` has each kind that a book for a check may have once, in the order of the definitions.
pub fn kinds_in_order()
    ensures { map kind_of ALL ≡ kinds_of Check }
{}
