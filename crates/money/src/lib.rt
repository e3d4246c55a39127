// Money over energies: the price, what energy is worth in cents, and the cents of energies in a row.
#![tactic(auto)]

mod guards;
mod price;
mod pricing;
mod worth;

pub use guards::{MOST_ENERGIES, call_refusal};
pub use price::bad_price;
pub use pricing::cents;
pub use worth::worth_of;
