// The statement of a text: one call.
#![tactic(auto)]

mod answer;

pub use answer::statement;
