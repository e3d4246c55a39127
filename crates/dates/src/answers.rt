// What the calls on dates give beside a number: a date, and why there is none.

// The date of a book day: month and day of the month.
#[derive(Clone, Copy, Debug, PartialEq, Eq)]
pub struct Date {
    pub month: u32,
    pub day: u32,
}

// Why there is no date or no book day: no winter has that name, or its book has no such day.
#[derive(Clone, Copy, Debug, PartialEq, Eq)]
pub enum DateError {
    NoWinter,
    NoDay,
}
