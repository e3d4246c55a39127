// Notices that can stand together: the list check.
#![tactic(auto)]

mod lent_check;
mod list_check;
mod notice_check;
mod notice_list;
mod rules;

pub use lent_check::check_lent;
pub use list_check::{bad_list, check_in};
