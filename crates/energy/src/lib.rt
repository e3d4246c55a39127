// What was spared: from the readings of a book to the spared energy of an event.
#![tactic(auto)]

mod call;
mod days;
mod events;
mod hours;
mod lines;
mod needed;
mod spared;
mod sums;
mod trimmed;

pub use call::settle_event;
pub use events::{Event, Unsettled, by_fault, line_numbers};
