// The text form read: whether a text has it, and what it says, in one walk.
// A text and a position stay two parameters, and an index or a book beside them: the contract of each function says what stands at the position
// of which text.
#![tactic(auto)]

mod lines;
mod places;
mod whole;

pub use lines::BrokenLine;
pub use whole::{Shape, read_text};
