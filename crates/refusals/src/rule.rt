// The rules that refuse a call, a notice, a reference, an energy or a text.
ghost use Rattle.std.specs.Prelude.{◌≡◌};
ghost use Rattle.refusals.specs.Refusals.{rule_number, at};

use crate::refusal::Refusal;

// A rule that is broken, named by what is wrong.
#[derive(Clone, Copy, Debug, PartialEq, Eq)]
pub enum Rule {
    NoWinter,
    BadBook,
    BadPrice,
    BadList,
    NoProfile,
    ShortOutput,
    HighEnergy,
    OutsidePeriod,
    ExcludedDay,
    Weekend,
    NoHours,
    BadLength,
    StartsBefore,
    SameBand,
    OverLimit,
    NoBand,
    AcrossBand,
    BrokenForm,
    MisplacedLine,
    LongText,
    WrongReferences,
    HighReference,
}

// The number of a rule. By a table and not by the cases' own values, of which no two may be one: `number_of_length_is_hours` and
// `fault_number_across_is_13`, two of the edits that have to be refused, give one number to two rules.
impl From<Rule> for u32 {
    ghost from_gives = { λ rule number. number ≡ rule_number rule };

    fn from(rule: Rule) -> u32 {
        match rule {
            Rule::NoWinter => 1,
            Rule::BadBook => 2,
            Rule::BadPrice => 3,
            Rule::BadList => 4,
            Rule::NoProfile => 5,
            Rule::ShortOutput => 6,
            Rule::HighEnergy => 7,
            Rule::OutsidePeriod => 10,
            Rule::ExcludedDay => 11,
            Rule::Weekend => 12,
            Rule::NoHours => 13,
            Rule::BadLength => 14,
            Rule::StartsBefore => 15,
            Rule::SameBand => 16,
            Rule::OverLimit => 18,
            Rule::NoBand => 26,
            Rule::AcrossBand => 27,
            Rule::BrokenForm => 30,
            Rule::MisplacedLine => 31,
            Rule::LongText => 32,
            Rule::WrongReferences => 40,
            Rule::HighReference => 41,
        }
    }
}

impl Rule {
    // The refusal of what breaks the rule in a place.
    pub fn at(self, place: u32) -> Refusal
        ensures { result ≡ at self place }
    {
        Refusal { rule: self, place }
    }
}
