// The reference days of an event.
#![tactic(auto)]

mod search;

pub use search::{Refs, reference_days};
