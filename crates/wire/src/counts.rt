// How many numbers some bytes are.
ghost use Rattle.std.specs.Prelude.{◌≡◌};
ghost use Rattle.wire.specs.Decoded.{number_count};

// How many numbers so many lent bytes are; where bytes are over, more than any book or list has, which is a wrong length (rule 9.3).
#[tactic(auto, unfolding(crate::specs::Decoded::number_count))]
pub fn numbers_in(length: usize) -> usize
    ensures { result ≡ number_count length }
{
    if length % 4 == 0 { length / 4 } else { 65_536 }
}
