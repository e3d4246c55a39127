// The medium-power settlement on bytes, as a host program in C lends them.
#![tactic(auto)]

mod power_call;

pub use power_call::power_bytes;
