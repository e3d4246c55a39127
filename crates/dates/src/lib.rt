// Winters, the days of their books, and dates, all by one table of month lengths.
// Every call takes any numbers, and refuses a winter outside 2010..2098 and then a day or a date outside the book.
#![tactic(auto)]

mod answers;
mod dates;
mod winters;

pub use answers::{Date, DateError};
pub use dates::{book_day_of, date_of, winter_days};
