// Weekdays of the book's days, counted from Sunday, 0, to Saturday, 6.
ghost use Rattle.std.specs.Prelude.{◌≡◌, ◌≤◌};
ghost use Rattle.dates.specs.Century.{InCentury};
ghost use Rattle.dates.specs.Answers.{number_paper};
ghost use Rattle.calendar.specs.Answers.{weekday_of};
ghost use Rattle.calendar.specs.Weekdays.{first_weekday, weekday, weekend};

use crate::answers::Winter;
use crate::winters::{CENTURY, winter_of};
use dates::DateError;

// The weekday of 1 November: of Y/100 and Y/400 in rule 1.8 the century decides.
#[tactic(auto, using(crate::proofs::Bounds::century_fours), unfolding(crate::specs::Weekdays::first_weekday))]
pub(crate) fn first_weekday(winter: u32) -> u32
    requires { InCentury winter }
    ensures { result ≡ first_weekday winter }
{
    (winter + winter / 4 - CENTURY + CENTURY / 4 + 3) % 7
}

// The weekday of a day, counted on from that of day 0. That may have been handed over as any number, and is cut down first: then nothing
// wraps in 32 bits. That the day is a book's stays a `requires` of three private functions: a type for it would be opened at each sum.
#[tactic(auto, unfolding(crate::specs::Weekdays::weekday))]
pub(crate) fn weekday_in(w: Winter, day: u32) -> u32
    requires { day ≤ 152 }
    ensures { result ≡ weekday w day }
{
    (w.first % 7 + day) % 7
}

// Whether a day is a Saturday or a Sunday.
#[tactic(auto, unfolding(crate::specs::Weekdays::weekend))]
pub(crate) fn is_weekend(w: Winter, day: u32) -> bool
    requires { day ≤ 152 }
    ensures { result ≡ weekend w day }
{
    matches!(weekday_in(w, day), 0 | 6)
}

// The weekday of a book day, 0 for Sunday to 6 for Saturday.
#[tactic(auto, using(crate::proofs::FactLaws::weekday_laws), unfolding(crate::specs::Answers::weekday_of))]
pub fn weekday_of(winter: u32, day: u32) -> Result<u32, DateError>
    ensures { number_paper result ≡ weekday_of winter day }
{
    let w = winter_of(winter).ok_or(DateError::NoWinter)?;
    if w.days <= day {
        return Err(DateError::NoDay);
    }
    Ok(weekday_in(w, day))
}
