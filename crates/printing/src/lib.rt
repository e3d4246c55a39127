// The statement of a settlement as bytes, and the line of a refused text.
// An output and an index stay two parameters, as in `numerals`, whose contracts these are.
#![tactic(auto)]

mod lines;
mod sheet;

pub use sheet::{print_refusal, print_statement};
