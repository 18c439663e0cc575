//! The tables that a folder may have, and their columns.

/// A table of a folder.
#[derive(Clone, Copy, PartialEq, Eq)]
pub enum Table {
    /// The bases, with their zones.
    Bases,
    /// Other stations, with their zones.
    Stations,
    /// The persons.
    Crew,
    /// The pairings.
    Pairings,
    /// The duties of pairings.
    Duties,
    /// The sectors of duties.
    Sectors,
    /// What persons do besides pairings.
    Activities,
    /// The leave of persons.
    Leave,
    /// What persons wish to fly, or not to fly.
    Wishes,
    /// What persons have flown, month by month.
    Flown,
    /// What persons do by the month before.
    CarriedActivities,
    /// The sectors of that.
    CarriedSectors,
    /// The leave of persons by the month before.
    CarriedLeave,
    /// What persons have flown by the months before.
    CarriedFlown,
    /// What persons are called: it has a path of its own, and no place in a folder.
    Names,
}

/// A column of a table.
#[derive(Clone, Copy, PartialEq, Eq)]
pub enum Column {
    /// A base.
    Base,
    /// The zone of a station: the name or the rule of its clocks.
    Zone,
    /// A person.
    Person,
    /// The rank of a person, or of who flies a pairing.
    Rank,
    /// The flight that is wanted of a person in the month.
    Target,
    /// When something begins, or where.
    From,
    /// When something ends, or where.
    To,
    /// A pairing.
    Pairing,
    /// What it costs to leave a pairing open.
    Penalty,
    /// How many persons fly a pairing.
    Count,
    /// Where a duty reports.
    Station,
    /// When a duty reports.
    Report,
    /// When a duty is released.
    Release,
    /// Where a duty is released.
    End,
    /// A duty.
    Duty,
    /// When a sector begins.
    Off,
    /// When a sector ends.
    On,
    /// Whether a sector is operated.
    Kind,
    /// What a person does.
    Code,
    /// The cost of a person flying a pairing.
    Units,
    /// A day.
    Date,
    /// A month.
    Month,
    /// What was flown in a month.
    Flight,
    /// What was flown before in the calendar year: it comes from the ledger.
    Year,
    /// What was flown in the eleven months before: it comes from the ledger.
    Eleven,
    /// What a person is called.
    Name,
    /// All rows of a table.
    Rows,
    /// None: a cell behind the last one.
    Outside,
    /// Whichever the last cell in quotes is of.
    Quoted,
}

impl Table {
    /// All tables of a folder, in the order in which they are read.
    pub const ALL: [Table; 14] = [
        Table::Bases,
        Table::Stations,
        Table::Crew,
        Table::Pairings,
        Table::Duties,
        Table::Sectors,
        Table::Activities,
        Table::Leave,
        Table::Wishes,
        Table::Flown,
        Table::CarriedActivities,
        Table::CarriedSectors,
        Table::CarriedLeave,
        Table::CarriedFlown,
    ];

    /// The name of its file.
    pub fn file(self) -> &'static str {
        match self {
            Table::Bases => "bases.csv",
            Table::Stations => "stations.csv",
            Table::Crew => "crew.csv",
            Table::Pairings => "pairings.csv",
            Table::Duties => "duties.csv",
            Table::Sectors => "sectors.csv",
            Table::Activities => "activities.csv",
            Table::Leave => "leave.csv",
            Table::Wishes => "wishes.csv",
            Table::Flown => "flown.csv",
            Table::CarriedActivities => "carried-activities.csv",
            Table::CarriedSectors => "carried-sectors.csv",
            Table::CarriedLeave => "carried-leave.csv",
            Table::CarriedFlown => "carried-flown.csv",
            Table::Names => "names.csv",
        }
    }

    /// Whether each folder has it.
    pub fn is_needed(self) -> bool {
        match self {
            Table::Bases | Table::Crew | Table::Pairings | Table::Duties => true,
            _ => false,
        }
    }

    /// The columns that it has.
    pub fn needed(self) -> &'static [Column] {
        match self {
            Table::Bases => &[Column::Base, Column::Zone],
            Table::Stations => &[Column::Station, Column::Zone],
            Table::Crew => &[Column::Person, Column::Base],
            Table::Pairings => &[Column::Pairing, Column::Base],
            Table::Duties => &[
                Column::Pairing,
                Column::Station,
                Column::Report,
                Column::Release,
            ],
            Table::Sectors => &[Column::Off, Column::On],
            Table::Activities | Table::CarriedActivities => &[
                Column::Person,
                Column::Code,
                Column::Station,
                Column::From,
                Column::To,
            ],
            Table::Leave | Table::CarriedLeave => &[Column::Person, Column::From, Column::To],
            Table::Wishes => &[Column::Person, Column::Units],
            Table::Flown | Table::CarriedFlown => {
                &[Column::Person, Column::Month, Column::Flight]
            }
            Table::CarriedSectors => &[Column::Person, Column::Off, Column::On],
            Table::Names => &[Column::Person, Column::Name],
        }
    }

    /// The columns that it may have besides.
    pub fn others(self) -> &'static [Column] {
        match self {
            Table::Crew => &[Column::Rank, Column::Target, Column::From, Column::To],
            Table::Pairings => &[Column::Rank, Column::Penalty, Column::Count],
            Table::Duties => &[Column::Duty, Column::End],
            Table::Sectors => &[
                Column::Pairing,
                Column::Duty,
                Column::Person,
                Column::From,
                Column::To,
                Column::Kind,
            ],
            Table::CarriedSectors => &[Column::Kind],
            Table::Wishes => &[Column::Pairing, Column::Date],
            _ => &[],
        }
    }
}

impl Column {
    /// Its name in a header row.
    pub fn name(self) -> &'static str {
        match self {
            Column::Base => "BASE",
            Column::Zone => "ZONE",
            Column::Person => "PERSON",
            Column::Rank => "RANK",
            Column::Target => "TARGET",
            Column::From => "FROM",
            Column::To => "TO",
            Column::Pairing => "PAIRING",
            Column::Penalty => "PENALTY",
            Column::Count => "COUNT",
            Column::Station => "STATION",
            Column::Report => "REPORT",
            Column::Release => "RELEASE",
            _ => self.later_name(),
        }
    }

    /// The name of one of the later columns.
    fn later_name(self) -> &'static str {
        match self {
            Column::End => "END",
            Column::Duty => "DUTY",
            Column::Off => "OFF",
            Column::On => "ON",
            Column::Kind => "KIND",
            Column::Code => "CODE",
            Column::Units => "UNITS",
            Column::Date => "DATE",
            Column::Month => "MONTH",
            Column::Flight => "FLIGHT",
            Column::Year => "YEAR",
            Column::Eleven => "ELEVEN",
            Column::Name => "NAME",
            Column::Outside => "behind the last column",
            Column::Quoted => "a cell in quotes",
            _ => "its rows",
        }
    }
}
