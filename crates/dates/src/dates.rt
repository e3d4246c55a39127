// The days of a winter's book, the date of a book day, and the book day of a date. All walk the months from November on.
ghost use Rattle.std.specs.Prelude.{◌≡◌, ◌≤◌, cond};
ghost use Rattle.dates.specs.Dates.{month_lengths, day_in_month};
ghost use Rattle.dates.specs.Winters.{no_winter};
ghost use Rattle.dates.specs.Answers.{days_paper, winter_days, date_paper, date_of, number_paper, book_day_of};

use crate::answers::{Date, DateError};
use crate::winters::{has_leap_day, no_winter};

// The lengths of a winter's months from November on, if a winter has that name.
#[tactic(auto, using(crate::proofs::Promise::winter_range), unfolding(crate::specs::Dates::month_lengths))]
fn month_lengths(winter: u32) -> Option<[u32; 5]>
    ensures { result ≡ cond (no_winter winter) None (Some (month_lengths winter)) }
{
    if no_winter(winter) {
        return None;
    }
    let february = if has_leap_day(winter) { 29 } else { 28 };
    Some([30, 31, 31, february, 31])
}

// N, the days of a winter's book: its months' days together.
#[tactic(auto, using(crate::proofs::DateLaws::without, laws::proofs::Refusals::refused), unfolding(crate::specs::Answers::winter_days))]
pub fn winter_days(winter: u32) -> Option<u32>
    ensures { days_paper result ≡ winter_days winter }
{
    Some(month_lengths(winter)?.iter().sum())
}

// The date of a book day: its month and day.
#[tactic(auto, using(crate::proofs::DateLaws::date_laws), unfolding(crate::specs::Answers::date_of))]
pub fn date_of(winter: u32, day: u32) -> Result<Date, DateError>
    ensures { date_paper result ≡ date_of winter day }
{
    let lengths = month_lengths(winter).ok_or(DateError::NoWinter)?;
    // The month goes on by itself: a list of months beside that of their lengths would be two that have to keep step.
    let mut month: u32 = 11;
    let mut left = day;
    for length in lengths {
        if left < length {
            return Ok(Date {
                month,
                day: left + 1,
            });
        }
        month = month % 12 + 1;
        left -= length;
    }
    Err(DateError::NoDay)
}

// The book day of a day of the month that starts at book day `first`, if the month is that long.
#[tactic(auto, unfolding(crate::specs::Dates::day_in_month))]
fn day_in_month(first: u32, length: u32, day: u32) -> Result<u32, DateError>
    requires { (first ≤ 155) × (length ≤ 31) }
    ensures { number_paper result ≡ day_in_month first length day }
{
    if !(1..=length).contains(&day) {
        return Err(DateError::NoDay);
    }
    Ok(first + day - 1)
}

// The book day of a date in a winter.
#[tactic(auto, using(crate::proofs::DateLaws::book_day_laws), unfolding(crate::specs::Answers::book_day_of))]
pub fn book_day_of(winter: u32, month: u32, day: u32) -> Result<u32, DateError>
    ensures { number_paper result ≡ book_day_of winter month day }
{
    let lengths = month_lengths(winter).ok_or(DateError::NoWinter)?;
    let mut now: u32 = 11;
    let mut first: u32 = 0;
    for length in lengths {
        if now == month {
            return day_in_month(first, length, day);
        }
        now = now % 12 + 1;
        first += length;
    }
    Err(DateError::NoDay)
}
