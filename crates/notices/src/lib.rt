// What a notice is: the notices of a list, the profiles and their figures, and the rules that need nothing but these.
#![tactic(auto)]

mod hours;
mod notices;
mod profiles;

pub use hours::{bad_length, hours_verdict};
pub use notices::{
    LONGEST_LIST, MOST_NOTICES, NOTICE_NUMBERS, Notice, count_in, hours_of, notice_at,
};
pub use profiles::{Band, Figures, Profile};
