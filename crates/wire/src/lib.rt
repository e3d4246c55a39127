// Numbers as bytes, little-endian, for the boundary to C: four bytes a number that comes in, eight a number that goes out.
#![tactic(auto)]

mod counts;
mod reading;
mod writing;

pub use counts::numbers_in;
pub use reading::{number_at, read_front, read_numbers};
pub use writing::write_numbers;
