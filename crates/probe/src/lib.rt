// The inner layers under names that C can link, for the tests and for scripts/calendar: no part of what is delivered.
#![tactic(auto)]

mod calendar_calls;
mod clock_calls;
mod event_calls;
mod mask_calls;
mod text_calls;

pub use calendar_calls::{
    probe_book_day, probe_date, probe_days, probe_easter, probe_kind, probe_part_length,
    probe_part_reading, probe_weekday,
};
pub use clock_calls::{probe_back, probe_forward};
pub use event_calls::{probe_event_energy, probe_event_fault};
pub use mask_calls::{probe_event_end, probe_event_start, probe_mask};
pub use text_calls::probe_statement;
