// The medium-power settlement: what each event spared by its reference, the effective power of a winter and its credit.
#![tactic(auto)]

mod call;
mod events;
mod guards;
mod lines;
mod rates;

pub use call::{PowerTotals, settle};
pub use events::Reduced;
pub use guards::{TOTAL_NUMBERS, call_refusal};
pub use lines::{LINE_NUMBERS, MOST_LINE_NUMBERS};
