// The refusals of the rules, for every call: which rule refuses, in which place, and the numbers that C and a statement tell it by.
#![tactic(auto)]

mod refusal;
mod rule;

pub use refusal::{Refusal, packed};
pub use rule::Rule;
