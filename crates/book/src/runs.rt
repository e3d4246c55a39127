// Runs of values, in a book or in a day's part of one. What lies past the end is not looked at.
ghost use Rattle.std.specs.Prelude.{◌≡◌, min};
ghost use Rattle.book.specs.Places.{run};
ghost use Rattle.book.specs.Readings.{reading_at, first_fault, RunSum};

use crate::values::{Fault, fault_of};

// Where a run up to `to` ends among so many values.
fn end_among(count: usize, to: u32) -> u32
    ensures { result ≡ min to count }
{
    (to as usize).min(count) as u32
}

// The reading at an index, 0 past the end.
pub fn reading(values: &[u32], at: u32) -> u32
    ensures { result ≡ reading_at values.now at }
{
    values.get(at as usize).copied().unwrap_or(0)
}

// The first fault among the values from one index up to another, told at its index.
pub fn first_fault(values: &[u32], from: u32, to: u32) -> Option<Fault>
    ensures { result ≡ first_fault values.now (run from to) }
{
    let end = end_among(values.len(), to);
    (from..end).find_map(|at| fault_of(values[at as usize], at))
}

// The sum of the values from one index up to another. As many 32-bit numbers as a u32 counts do not wrap 64 bits.
pub fn sum_of(values: &[u32], from: u32, to: u32) -> u64
    ensures { RunSum values.now from to result }
{
    let end = end_among(values.len(), to);
    (from..end).map(|at| u64::from(values[at as usize])).sum()
}
