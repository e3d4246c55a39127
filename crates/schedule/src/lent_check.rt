// The list check on lent bytes. Each notice is read where its bytes lie: no list is copied to be judged.
ghost use Rattle.std.specs.Prelude.{◌≡◌, false};
ghost use Rattle.calendar.specs.Days.{wrong_winter};
ghost use Rattle.wire.specs.Decoded.{decoded};
ghost use Rattle.refusals.specs.Refusals.{verdict_paper};
ghost use Rattle.schedule.specs.ListCheck.{checked_in, check_answer};

use crate::list_check::bad_list;
use crate::notice_check::Terms;
use crate::notice_list::LentNumbers;
use calendar::Winter;
use notices::Profile;
use refusals::{Refusal, Rule};

// Whether a lent list stands in a winter whose facts are at hand. Bytes over make it too long (rule 9.3). It goes the steps of `check_in` by itself: a
// `LentNumbers` can be made only where the length is right. That the winter is one it is told by `check_lent`, which has just made it.
fn check_lent_in(w: Winter, p: Profile, list: &[u8]) -> Result<(), Refusal>
    requires { wrong_winter w ≡ false }
    ensures { verdict_paper result ≡ checked_in w p (decoded list.now) }
{
    let numbers = wire::numbers_in(list.len());
    if bad_list(numbers) {
        return Err(Rule::BadList.into());
    }
    let whole = LentNumbers { bytes: list };
    Terms::of(w, p).check_notices(whole, notices::count_in(numbers))
}

// Whether a list of notices, lent as bytes, stands under a profile in a winter, or the first rule that it breaks.
pub fn check_lent(winter: u32, profile: u32, list: &[u8]) -> Result<(), Refusal>
    ensures { verdict_paper result ≡ check_answer winter profile (decoded list.now) }
{
    let w = calendar::winter_of(winter).ok_or(Rule::NoWinter)?;
    let p = Profile::try_from(profile)?;
    check_lent_in(w, p, list)
}
