// What the calendar's calls give: a winter's own facts, and the kind of a day.

// A winter's own facts, by which all questions on its days go: N, the first day of December, the weekday of day 0, 0 for Sunday, and
// Easter Sunday as a book day, which may lie past the book.
#[derive(Clone, Copy, Debug, PartialEq, Eq)]
pub struct Winter {
    pub days: u32,
    pub december: u32,
    pub first: u32,
    pub easter: u32,
}

// What kind of day a book day is.
#[derive(Clone, Copy, Debug, PartialEq, Eq)]
pub struct Kind {
    pub period: bool,
    pub weekend: bool,
    pub excluded: bool,
}
