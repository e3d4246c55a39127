// How long a book is.
ghost use Rattle.std.specs.Prelude.{◌≡◌};
ghost use Rattle.book.specs.Length.{book_length, wrong_length};

// The hours of a day.
pub const DAY_HOURS: usize = 24;

// How many numbers the longest book has.
pub const MOST_READINGS: usize = DAY_HOURS * 152;

// How many numbers the book of so many days has. A usize holds 24 times any u32.
pub fn length_of(days: u32) -> usize
    ensures { result ≡ book_length days }
{
    DAY_HOURS * (days as usize)
}

// Whether so many numbers are no book of so many days.
pub fn wrong_length(days: u32, numbers: usize) -> bool
    ensures { result ≡ wrong_length days numbers }
{
    numbers != length_of(days)
}
