// The settlement of a winter's notices: a code, a place and a spared energy each; and the energies of a winter, three numbers a notice.
#![tactic(auto)]

mod call;
mod events;
mod guards;
mod lines;

pub use call::energies;
pub use events::event_at;
pub use guards::{call_refusal, short_output};
pub use lines::{LINE_NUMBERS, MOST_LINE_NUMBERS};
