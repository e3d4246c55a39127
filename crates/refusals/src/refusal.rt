// A refusal, and its one number for C.
ghost use Rattle.std.specs.Prelude.{◌≡◌};
ghost use Rattle.refusals.specs.Refusals.{at};
ghost use Rattle.refusals.specs.Packed.{packed};

use crate::rule::Rule;

// What refuses: the rule, and the place where it is broken, which is 0 of a whole call.
#[derive(Clone, Copy, Debug, PartialEq, Eq)]
pub struct Refusal {
    pub rule: Rule,
    pub place: u32,
}

// A rule that refuses a whole call stands in no other place than 0.
impl From<Rule> for Refusal {
    ghost from_gives = { λ rule refusal. refusal ≡ at rule 0 };

    fn from(rule: Rule) -> Refusal {
        rule.at(0)
    }
}

// Number and place in one number, 0 where nothing is refused (rule 9.5). It has 16 bits for a place, and no list has more.
pub fn packed(verdict: Result<(), Refusal>) -> u32
    ensures { result ≡ packed verdict }
{
    match verdict {
        Ok(()) => 0,
        Err(refusal) => 65_536 * u32::from(refusal.rule) + refusal.place % 65_536,
    }
}
