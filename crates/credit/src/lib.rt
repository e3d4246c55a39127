// The winter credit: the events of a winter's notices and their cents, four numbers a notice.
#![tactic(auto)]

mod call;
mod guards;
mod lines;

pub use call::settle;
pub use guards::call_refusal;
pub use lines::{LINE_NUMBERS, MOST_LINE_NUMBERS, Totals};
