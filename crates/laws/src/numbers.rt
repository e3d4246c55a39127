// Numbers in a row that are refused where they are too large.
ghost use Rattle.std.specs.Prelude.{◌≡◌, nat_lt, position};

// The index of the first number above the largest that is taken, if one is.
pub fn first_above(most: u32, numbers: &[u32]) -> Option<usize>
    ensures { result ≡ position (λ number. nat_lt most number) numbers.now }
{
    numbers.iter().position(|number| most < *number)
}
