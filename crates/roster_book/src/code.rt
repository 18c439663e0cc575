//! What may be wrong with a record.

ghost use Rattle.std.specs.Prelude.{◌≡◌};
ghost use Rattle.roster_model.specs.Code.{number_of_code};
ghost use Rattle.roster_book.specs.View.{code_of};

/// What may be wrong with a record. Of what is wrong with one record the first is told.
#[derive(Clone, Copy, PartialEq, Eq)]
pub enum Code {
    /// The first record is no period.
    NoPeriod,
    /// Its kind is none of the command's.
    UnknownKind,
    /// It has another number of fields than its kind.
    FieldCount,
    /// A field isn't of its form.
    FieldForm,
    /// A number is outside its limits.
    OutOfLimits,
    /// It was given before.
    GivenTwice,
    /// What it names wasn't given before.
    NotGiven,
    /// An end isn't after its start, a sector is outside its duty, or one begins before the last one
    /// ends.
    OutOfSequence,
    /// It reaches out of the window.
    OutOfWindow,
    /// The zone text gives no days.
    ZoneRefused,
    /// There are as many of its kind as there may be.
    NoRoom,
    /// The first duty of a pairing reports away from its base, or outside the month there.
    WrongStart,
    /// The person has a fixed duty or a leave in one of its minutes.
    Busy,
    /// A pairing has no duty.
    NoDuty,
    /// A person has more legal sets than there may be.
    TooManyLines,
}

impl Code {
    /// How it is told, from 1 to 15.
    pub fn number(self) -> u8
        ensures { result ≡ number_of_code (code_of self) }
    {
        match self {
            Code::NoPeriod => 1,
            Code::UnknownKind => 2,
            Code::FieldCount => 3,
            Code::FieldForm => 4,
            Code::OutOfLimits => 5,
            Code::GivenTwice => 6,
            Code::NotGiven => 7,
            Code::OutOfSequence => 8,
            Code::OutOfWindow => 9,
            Code::ZoneRefused => 10,
            Code::NoRoom => 11,
            Code::WrongStart => 12,
            Code::Busy => 13,
            Code::NoDuty => 14,
            Code::TooManyLines => 15,
        }
    }
}
