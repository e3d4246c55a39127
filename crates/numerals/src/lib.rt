// Decimal numbers, words and lines as bytes, as a text and a statement hold them.
// A text and a position stay two parameters, as do an output and an index: the contract of each function says what stands at the position of
// which text, and a reader of both would say no more.
#![tactic(auto)]

mod fields;
mod rows;
mod writing;

pub use fields::{Field, Number, field_at, keyed_at, word_at};
pub use rows::{Row, row_at};
pub use writing::put_line;
