// The day's part of a lent book.
ghost use Rattle.std.specs.Prelude.{◌≡◌, ◌+◌, ◌*◌, length};
ghost use Rattle.book.specs.Part.{no_part, day_readings, part_start};

use crate::lengths::{DAY_HOURS, length_of, wrong_length};
use calendar::Winter;

// Whether a book of that length has no part for the day: the winter, the length or the day is wrong.
#[tactic(auto, using(calendar::proofs::Promise::day_test), unfolding(crate::specs::Part::no_part))]
fn no_part(w: Winter, length: usize, day: u32) -> bool
    ensures { result ≡ no_part w length day }
{
    calendar::wrong_winter(w) | wrong_length(w.days, length) | (w.days <= day)
}

// The part of the lent book that is a day's, 96 bytes a day from its start; the empty part where rule 2.8 says so.
#[tactic(auto, using(crate::proofs::PartLaws::has_part), unfolding(crate::specs::Part::day_readings, crate::specs::Part::part_start))]
pub fn day_readings(w: Winter, book: &[u32], day: u32) -> &[u32]
    ensures contents { result.now ≡ day_readings w book.now day }
    ensures place { (result.ref_ptr.0 ≡ book.entry.ref_ptr.0) × (result.ref_ptr.1 ≡ book.entry.ref_ptr.1 + 4 * part_start w (length book.now) day) }
{
    if no_part(w, book.len(), day) {
        return &book[0..0];
    }
    let start = length_of(day);
    let end = start + DAY_HOURS;
    &book[start..end]
}
