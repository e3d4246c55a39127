// The event hours of a book's days: 24 bits a day, bit h for hour h, the masks of all 152 days in one value, and the events read back
// from them.
#![tactic(auto)]

mod days;
mod events;
mod hours;

pub use days::masks_of;
pub use events::event_on;
