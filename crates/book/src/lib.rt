// What a book is: its length, the place of an hour, what a value is, a day's part, the first fault and the sum of a run of values.
// Every call takes any numbers.
#![tactic(auto)]

mod guards;
mod lengths;
mod parts;
mod places;
mod runs;
mod values;

pub use guards::book_refusal;
pub use lengths::{DAY_HOURS, MOST_READINGS, length_of, wrong_length};
pub use parts::day_readings;
pub use places::hour_place;
pub use runs::{first_fault, reading, sum_of};
pub use values::{Fault, MISSING_MARK, is_reading};
