// The calendar's calls. An answer is 2^32 times the refusal number plus the values.
ghost use Rattle.std.specs.Prelude.{◌≡◌, length, get_or};
ghost use Rattle.dates.specs.Answers.{error_number, winter_days, number_paper, date_of, date_paper, book_day_of};
ghost use Rattle.calendar.specs.Answers.{kind_paper, easter_sunday, weekday_of, day_kind};
ghost use Rattle.calendar.specs.declared.answers.Winter.{Winter};
ghost use Rattle.laws.specs.Answer.{refusal};
ghost use Rattle.probe.specs.Told.{told, kind_told, of_year, part_of};

use calendar::Kind;
use dates::{Date, DateError};

// An error beside no value, by its number.
pub(crate) fn error_told(error: DateError) -> u64
    ensures { result ≡ told (refusal (error_number error)) }
{
    match error {
        DateError::NoWinter => 1 << 32,
        DateError::NoDay => 10 << 32,
    }
}

// A number or its error.
pub(crate) fn number_told(number: Result<u32, DateError>) -> u64
    ensures { result ≡ told (number_paper number) }
{
    match number {
        Ok(n) => u64::from(n),
        Err(error) => error_told(error),
    }
}

// A date, its month and day, or its error.
fn date_told(date: Result<Date, DateError>) -> u64
    ensures { result ≡ told (date_paper date) }
{
    match date {
        Ok(date) => 65_536 * u64::from(date.month) + u64::from(date.day),
        Err(error) => error_told(error),
    }
}

// The kind of a day, in three bits, or its error.
fn kind_told(kind: Result<Kind, DateError>) -> u64
    ensures { result ≡ kind_told (kind_paper kind) }
{
    match kind {
        Ok(k) => 4 * u64::from(k.period) + 2 * u64::from(k.weekend) + u64::from(k.excluded),
        Err(error) => error_told(error),
    }
}

// The days of a winter's book.
#[unsafe(no_mangle)]
pub extern "C" fn probe_days(winter: u32) -> u64
    ensures { result ≡ told (winter_days winter) }
{
    number_told(dates::winter_days(winter).ok_or(DateError::NoWinter))
}

// Easter Sunday: its month and day.
#[unsafe(no_mangle)]
pub extern "C" fn probe_easter(year: u32) -> u64
    ensures { result ≡ told (easter_sunday year) }
{
    date_told(calendar::easter_sunday(year).ok_or(DateError::NoWinter))
}

// The weekday of a book day.
#[unsafe(no_mangle)]
pub extern "C" fn probe_weekday(winter: u32, day: u32) -> u64
    ensures { result ≡ told (weekday_of winter day) }
{
    number_told(calendar::weekday_of(winter, day))
}

// The kind of a book day, in three bits: in the winter period, a weekend day, excluded.
#[unsafe(no_mangle)]
pub extern "C" fn probe_kind(winter: u32, day: u32) -> u64
    ensures { result ≡ kind_told (of_year winter (λ (w : Winter). day_kind w day)) }
{
    let Some(w) = calendar::winter_of(winter) else {
        return error_told(DateError::NoWinter);
    };
    kind_told(calendar::kind_of(w, day))
}

// The date of a book day: its month and day.
#[unsafe(no_mangle)]
pub extern "C" fn probe_date(winter: u32, day: u32) -> u64
    ensures { result ≡ told (date_of winter day) }
{
    date_told(dates::date_of(winter, day))
}

// The book day of a date.
#[unsafe(no_mangle)]
pub extern "C" fn probe_book_day(winter: u32, month: u32, day: u32) -> u64
    ensures { result ≡ told (book_day_of winter month day) }
{
    number_told(dates::book_day_of(winter, month, day))
}

// How many readings a day's part of a book has.
#[unsafe(no_mangle)]
pub extern "C" fn probe_part_length(winter: u32, book: &[u32], day: u32) -> usize
    ensures { result ≡ length (part_of winter book.now day) }
{
    let Some(w) = calendar::winter_of(winter) else {
        return 0;
    };
    book::day_readings(w, book, day).len()
}

// The reading of an hour in a day's part; 0 where the part has no such hour.
#[unsafe(no_mangle)]
pub extern "C" fn probe_part_reading(winter: u32, book: &[u32], day: u32, hour: usize) -> u32
    ensures { result ≡ get_or (part_of winter book.now day) hour 0 }
{
    let Some(w) = calendar::winter_of(winter) else {
        return 0;
    };
    book::day_readings(w, book, day)
        .get(hour)
        .copied()
        .unwrap_or(0)
}
