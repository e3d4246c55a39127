// T of an hour: rule 6.2.
ghost use Rattle.std.specs.Prelude.{◌≡◌};
ghost use Rattle.energy.specs.Ready.{IsTrimmed};
ghost use Rattle.energy.specs.Trimmed.{sum_of, smallest_of, largest_of};

// A smallest of five numbers.
fn smallest(five: &[u32; 5]) -> u32
    ensures { result ≡ smallest_of five.now }
{
    five.iter().copied().min().unwrap_or(0)
}

// A largest of five numbers.
pub(crate) fn largest(five: &[u32; 5]) -> u32
    ensures { result ≡ largest_of five.now }
{
    five.iter().copied().max().unwrap_or(0)
}

// The sum of five numbers. In 64 bits it does not wrap.
fn total(five: &[u32; 5]) -> u64
    ensures { result ≡ sum_of five.now }
{
    five.iter().map(|x| u64::from(*x)).sum()
}

// One value is dropped at each end, at each hour by itself, and no whole day.
#[tactic(auto, using(crate::proofs::TrimmedLaws::dropped_within))]
pub(crate) fn trimmed_of(five: [u32; 5]) -> u64
    ensures { IsTrimmed five result }
{
    let low = smallest(&five);
    let high = largest(&five);
    total(&five) - u64::from(low) - u64::from(high)
}
