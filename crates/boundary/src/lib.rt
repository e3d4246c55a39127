// The calls on bytes, as a host program in C lends them.
#![tactic(auto)]

mod cents_call;
mod check_call;
mod energies_call;
mod settle_call;

pub use cents_call::cents_bytes;
pub use check_call::check_bytes;
pub use energies_call::energies_bytes;
pub use settle_call::settle_bytes;
