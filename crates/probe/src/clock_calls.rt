// The Sundays on which the clocks change. An answer is 2^32 times the refusal number plus the day.
ghost use Rattle.std.specs.Prelude.{◌≡◌};
ghost use Rattle.calendar.specs.Answers.{forward_day, back_day};
ghost use Rattle.probe.specs.Told.{told, of_year};

use crate::calendar_calls::{error_told, number_told};
use dates::DateError;

// The Sunday the clocks go forward, as a book day.
#[unsafe(no_mangle)]
pub extern "C" fn probe_forward(winter: u32) -> u64
    ensures { result ≡ told (of_year winter forward_day) }
{
    let Some(w) = calendar::winter_of(winter) else {
        return error_told(DateError::NoWinter);
    };
    number_told(calendar::clocks_forward(w).ok_or(DateError::NoWinter))
}

// The Sunday the clocks go back, as a book day.
#[unsafe(no_mangle)]
pub extern "C" fn probe_back(winter: u32) -> u64
    ensures { result ≡ told (of_year winter back_day) }
{
    let Some(w) = calendar::winter_of(winter) else {
        return error_told(DateError::NoWinter);
    };
    number_told(calendar::clocks_back(w).ok_or(DateError::NoWinter))
}
