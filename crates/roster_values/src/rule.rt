//! The rules by name.

ghost use Rattle.std.specs.Prelude.{◌≡◌};
ghost use Rattle.roster_model.specs.Rules.{by_rank, limits_by_rank, word_of_rule, AreByRank, LimitRule};
ghost use Rattle.roster_values.specs.View.{limit_of, rule_of};
ghost use Rattle.roster_values.specs.declared.rule.TheConstants.Limit as limits;
ghost use Rattle.roster_values.specs.declared.rule.TheConstants.Rule.{ALL};

/// A rule on how much duty or flight there may be.
#[derive(Clone, Copy, PartialEq, Eq)]
pub enum Limit {
    /// There is not too much duty in 7 days in a row.
    Duty7,
    /// There is not too much duty in 14 days in a row.
    Duty14,
    /// There is not too much duty in 28 days in a row.
    Duty28,
    /// There is not too much flight in 28 days in a row.
    Flight28,
    /// There is not too much flight in the calendar year.
    FlightYear,
    /// There is not too much flight in 12 calendar months in a row.
    Flight12,
}

impl Limit {
    /// All limits, in the order in which they are judged.
    pub const ALL: [Limit; 6] = [
        Limit::Duty7,
        Limit::Duty14,
        Limit::Duty28,
        Limit::Flight28,
        Limit::FlightYear,
        Limit::Flight12,
    ];

    /// The limit as a rule.
    pub fn rule(self) -> Rule
        ensures { rule_of result ≡ LimitRule (limit_of self) }
    {
        match self {
            Limit::Duty7 => Rule::Duty7,
            Limit::Duty14 => Rule::Duty14,
            Limit::Duty28 => Rule::Duty28,
            Limit::Flight28 => Rule::Flight28,
            Limit::FlightYear => Rule::FlightYear,
            Limit::Flight12 => Rule::Flight12,
        }
    }
}

/// A rule that a person's set of pairings has to keep.
#[derive(Clone, Copy, PartialEq, Eq)]
pub enum Rule {
    /// A person flies only pairings of the home base.
    Base,
    /// No two duties share a minute.
    Overlap,
    /// No duty shares a minute with a leave.
    Leave,
    /// Between two duties lies enough rest.
    Rest,
    /// Recurrent rests follow one another soon enough.
    Recovery,
    /// There is not too much duty in 7 days in a row.
    Duty7,
    /// There is not too much duty in 14 days in a row.
    Duty14,
    /// There is not too much duty in 28 days in a row.
    Duty28,
    /// There is not too much flight in 28 days in a row.
    Flight28,
    /// There is not too much flight in the calendar year.
    FlightYear,
    /// There is not too much flight in 12 calendar months in a row.
    Flight12,
    /// There are two local days off in a row, twice in the month.
    Days2,
}

impl Rule {
    /// All rules, in the order in which they are judged.
    pub const ALL: [Rule; 12] = [
        Rule::Base,
        Rule::Overlap,
        Rule::Leave,
        Rule::Rest,
        Rule::Recovery,
        Rule::Duty7,
        Rule::Duty14,
        Rule::Duty28,
        Rule::Flight28,
        Rule::FlightYear,
        Rule::Flight12,
        Rule::Days2,
    ];

    /// The word that tells it.
    pub fn word(self) -> &'static str
        ensures { result.now ≡ word_of_rule (rule_of self) }
    {
        match self {
            Rule::Base => "BASE",
            Rule::Overlap => "OVERLAP",
            Rule::Leave => "LEAVE",
            Rule::Rest => "REST",
            Rule::Recovery => "RECOVERY",
            Rule::Duty7 => "DUTY7",
            Rule::Duty14 => "DUTY14",
            Rule::Duty28 => "DUTY28",
            Rule::Flight28 => "FLIGHT28",
            Rule::FlightYear => "FLIGHTYEAR",
            Rule::Flight12 => "FLIGHT12",
            Rule::Days2 => "DAYS2",
        }
    }
}

/// `Rule::ALL` has each rule of the definitions once, in the order in which they are judged.
pub fn rules_in_order()
    ensures { AreByRank by_rank rule_of ALL }
{}

/// `Limit::ALL` has each limit of the definitions once, in the order in which they are judged.
pub fn limits_in_order()
    ensures { AreByRank limits_by_rank limit_of limits.ALL }
{}
