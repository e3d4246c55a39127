// Excluded days: six fixed days, Good Friday and Easter Monday.
ghost use Rattle.std.specs.Prelude.{◌≡◌, false};
ghost use Rattle.calendar.specs.Excluded.{fixed_days, among, excluded};
ghost use Rattle.calendar.specs.Days.{no_day};

use crate::answers::Winter;

// 24, 25, 26, 31 December, 1 and 2 January.
const FIXED_DAYS: [u32; 6] = [53, 54, 55, 60, 61, 62];

// Whether a day is one of the six fixed days. No day before the first or after the last is looked up.
#[tactic(auto, unfolding(crate::specs::Excluded::among))]
fn is_fixed(day: u32) -> bool
    ensures { result ≡ among day fixed_days }
{
    (53..=62).contains(&day) && FIXED_DAYS.contains(&day)
}

// Whether a book day is excluded. Easter may lie after 31 March, and then no book day is beside it. In 64 bits no sum wraps.
#[tactic(auto, unfolding(crate::specs::Excluded::excluded, crate::specs::Excluded::good_friday, crate::specs::Excluded::easter_monday))]
pub(crate) fn is_excluded(w: Winter, day: u32) -> bool
    requires { no_day w day ≡ false }
    ensures { result ≡ excluded w day }
{
    let d = u64::from(day);
    let easter = u64::from(w.easter);
    // By `|` there is no branch between the two days beside Easter Sunday: by `||` it was tried, and is slower.
    is_fixed(day) || (d + 2 == easter) | (d == easter + 1)
}
