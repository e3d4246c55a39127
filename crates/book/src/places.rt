// The place of an hour in a book.
ghost use Rattle.std.specs.Prelude.{◌≡◌};
ghost use Rattle.book.specs.Places.{hour_place};

use crate::lengths::length_of;

// The place of an hour of a day: as many numbers as the days before have, and the hour. A usize holds it for any two.
pub fn hour_place(day: u32, hour: u32) -> usize
    ensures { result ≡ hour_place day hour }
{
    length_of(day) + hour as usize
}
