// The list check: whether the notices of a list can stand together under a profile.
ghost use Rattle.std.specs.Prelude.{◌≡◌};
ghost use Rattle.refusals.specs.Refusals.{verdict_paper};
ghost use Rattle.schedule.specs.ListCheck.{bad_list, checked_in};

use crate::notice_check::Terms;
use calendar::Winter;
use notices::Profile;
use refusals::{Refusal, Rule};

// Number 4 (rule 4.6): whether a list of so many numbers is not whole notices, or has too many.
#[tactic(auto, unfolding(crate::specs::ListCheck::bad_list))]
pub fn bad_list(length: usize) -> bool
    ensures { result ≡ bad_list length }
{
    (length % notices::NOTICE_NUMBERS != 0) | (notices::LONGEST_LIST < length)
}

// Whether a list of notices stands in a winter whose facts are at hand, or the first rule that it breaks.
pub fn check_in(w: Winter, p: Profile, list: &[u32]) -> Result<(), Refusal>
    ensures { verdict_paper result ≡ checked_in w p list.now }
{
    if calendar::wrong_winter(w) {
        return Err(Rule::NoWinter.into());
    }
    let length = list.len();
    if bad_list(length) {
        return Err(Rule::BadList.into());
    }
    Terms::of(w, p).check_notices(list, notices::count_in(length))
}
