// The Sundays on which the clocks change.
ghost use Rattle.std.specs.Prelude.{◌≡◌, ◌≤◌};
ghost use Rattle.calendar.specs.Answers.{change_paper, forward_day, back_day};
ghost use Rattle.calendar.specs.Clocks.{sunday_from};

use crate::answers::Winter;
use crate::weekdays::weekday_in;
use crate::winters::wrong_winter;

// The hour that the clocks pass over on the Sunday they go forward.
pub const PASSED_HOUR: u32 = 2;

// So many days a book has from 8 March on, with which that Sunday's week begins: before it no day need be compared with the Sunday.
pub const DAYS_FROM_8_MARCH: u32 = 24;

// The first Sunday from a day on.
#[tactic(auto, using(crate::proofs::ClockLaws::weekday_few), unfolding(crate::specs::Clocks::sunday_from))]
fn sunday_from(w: Winter, day: u32) -> u32
    requires { day ≤ 152 }
    ensures { result ≡ sunday_from w day }
{
    day + (7 - weekday_in(w, day)) % 7
}

// The Sunday the clocks go forward, the second of March: a week after the first.
#[tactic(auto, using(crate::proofs::ClockLaws::change_laws), unfolding(crate::specs::Answers::forward_day))]
pub fn clocks_forward(w: Winter) -> Option<u32>
    ensures { change_paper result ≡ forward_day w }
{
    if wrong_winter(w) {
        return None;
    }
    Some(sunday_from(w, w.days - 31) + 7)
}

// The Sunday the clocks go back, the first of November.
#[tactic(auto, using(crate::proofs::ClockLaws::change_laws), unfolding(crate::specs::Answers::back_day))]
pub fn clocks_back(w: Winter) -> Option<u32>
    ensures { change_paper result ≡ back_day w }
{
    if wrong_winter(w) {
        return None;
    }
    Some(sunday_from(w, 0))
}
