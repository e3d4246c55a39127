// The winter calendar: a winter's own facts, the kind of each of its days, weekdays, Easter, and the Sundays on which the clocks change.
// Every call takes any numbers. A winter outside 2010..2098 is refused where its facts are asked for, a day outside its book after that.
#![tactic(auto)]

mod answers;
mod clocks;
mod easter;
mod excluded;
mod kinds;
mod weekdays;
mod winters;

pub use answers::{Kind, Winter};
pub use clocks::{DAYS_FROM_8_MARCH, PASSED_HOUR, clocks_back, clocks_forward};
pub use easter::easter_sunday;
pub use kinds::kind_of;
pub use weekdays::weekday_of;
pub use winters::{winter_of, wrong_winter};
