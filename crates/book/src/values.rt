// What a value of a book is: a reading, the mark of a missing one, or neither.
ghost use Rattle.std.specs.Prelude.{◌≡◌};
ghost use Rattle.book.specs.Values.{is_reading, fault_of};

// The mark of a missing reading.
pub const MISSING_MARK: u32 = 4_294_967_295;

// The largest reading, in Wh.
const LARGEST_READING: u32 = 10_000_000;

// What is wrong with a needed reading, and where.
#[derive(Clone, Copy, Debug, PartialEq, Eq)]
pub enum Fault {
    Missing(u32),
    TooLarge(u32),
}

// Whether a value is a reading.
pub fn is_reading(value: u32) -> bool
    ensures { result ≡ is_reading value }
{
    value <= LARGEST_READING
}

// The fault of a value that stands at a place. Nearly all are readings, which one test tells: the mark is above them all.
#[tactic(auto, unfolding(crate::specs::Values::fault_of))]
pub(crate) fn fault_of(value: u32, place: u32) -> Option<Fault>
    ensures { result ≡ fault_of value place }
{
    if is_reading(value) {
        return None;
    }
    if value == MISSING_MARK {
        return Some(Fault::Missing(place));
    }
    Some(Fault::TooLarge(place))
}
