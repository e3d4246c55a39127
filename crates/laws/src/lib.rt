// The ground under every other crate: the form of an answer on paper, and laws that every layer cites. Its one function finds
// the first of some numbers that is too large.
#![tactic(auto)]

mod numbers;

pub use numbers::first_above;
