// Where the values of read lines stand in a book.
ghost use Rattle.std.specs.Prelude.{◌≡◌, ◌≤◌};
ghost use Rattle.form.specs.Places.{book_days, hour_place, misplaced_by};

// The day, the first hour and the number of hours of a read line, and the position after it.
#[derive(Clone, Copy)]
pub struct Hours {
    pub day: u32,
    pub hour: u32,
    pub count: u32,
    pub next: usize,
}

// The days of a winter's book; 0 where no winter has that name.
#[tactic(auto, using(crate::proofs::PlaceLaws::days_or_none))]
pub(crate) fn book_days(winter: u32) -> usize
    ensures { result ≡ book_days winter }
{
    dates::winter_days(winter).unwrap_or(0) as usize
}

// The place of an hour in the book. A usize holds 24 times any day.
pub(crate) fn place_of(day: u32, hour: u32) -> usize
    ensures value { result ≡ hour_place day hour }
    ensures upper_bound { result ≤ 107374182375 }
{
    book::hour_place(day, hour)
}

// 31: a read line is outside the book or the day, or starts before the end of the one before.
#[tactic(auto, unfolding(crate::specs::Places::misplaced_by))]
pub(crate) fn misplaced(days: usize, end: usize, hours: Hours) -> bool
    ensures { result ≡ misplaced_by days end hours.day hours.hour hours.count }
{
    let start = place_of(hours.day, hours.hour);
    let last = hours.hour as usize + hours.count as usize;
    days <= hours.day as usize || book::DAY_HOURS < last || start < end
}
