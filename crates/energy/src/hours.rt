// The hours of an event: runs of hours of a day.
ghost use Rattle.std.specs.Prelude.{◌≡◌, false};
ghost use Rattle.calendar.specs.Days.{wrong_winter};
ghost use Rattle.energy.specs.HoursOf.{Spans, RunIn, HoursIn, run_count, warm_count, is_split, HoursFor};

use calendar::Winter;
use notices::Profile;

// The hours of a day from one up to another, which is not one of them.
#[derive(Clone, Copy)]
pub struct Run {
    pub from: u32,
    pub to: u32,
}

// The warm-up hours of an event in two runs, and its own. Early ones there are only where the clocks pass over an hour between: that run is
// nearly always empty.
#[derive(Clone, Copy)]
pub struct Hours {
    pub early: Run,
    pub warm: Run,
    pub event: Run,
}

impl Run {
    // How many hours the run has.
    pub(crate) fn count(self) -> u64
        requires { RunIn self }
        ensures { result ≡ run_count self }
    {
        u64::from(self.to - self.from)
    }
}

impl Hours {
    // W, the number of warm-up hours. That they are hours of a day stays a `requires` (`HoursIn`), and no field of `Hours`: where it is made more is said
    // of it (`HoursFor`), of which that is a part.
    pub(crate) fn warm_count(self) -> u64
        requires { HoursIn self }
        ensures { result ≡ warm_count self }
    {
        self.early.count() + self.warm.count()
    }
}

// That a winter is one stays a `requires` here, of `hours_of` and of `in_period`: `settle_event` takes any `Winter` and asks it once, and a struct that
// holds the fact would be made for these calls and opened in each.
// Whether the passed hour lies between the warm-up hours: on the Sunday the clocks go forward, of an event that starts at 6 or 7. It need
// not be asked for before 8 March.
#[tactic(auto, using(crate::proofs::SplitHours::early_days, crate::proofs::SplitHours::never_split, crate::proofs::SplitHours::split_sunday))]
fn is_split(w: Winter, day: u32, start: u32) -> bool
    requires { wrong_winter w ≡ false }
    ensures { result ≡ is_split w day start }
{
    if (calendar::PASSED_HOUR + 5 < start) | (day < w.days - calendar::DAYS_FROM_8_MARCH) {
        return false;
    }
    calendar::clocks_forward(w) == Some(day)
}

// The hours of the event from start to end - 1 on a day: three warm-up hours before a morning event, two before an evening event, in
// elapsed hours.
pub(crate) fn hours_of(w: Winter, day: u32, start: u32, end: u32) -> Hours
    requires right_winter { wrong_winter w ≡ false }
    requires spans { Spans start end }
    ensures { HoursFor w day start end result }
{
    let to = start - 2;
    let event = Run {
        from: start,
        to: end,
    };
    if is_split(w, day, start) {
        let early = Run {
            from: start - 6,
            to: calendar::PASSED_HOUR,
        };
        let warm = Run {
            from: calendar::PASSED_HOUR + 1,
            to,
        };
        return Hours { early, warm, event };
    }
    let ahead = if start < Profile::CREDIT.evening.start {
        5
    } else {
        4
    };
    let warm = Run {
        from: start - ahead,
        to,
    };
    let early = Run {
        from: warm.from,
        to: warm.from,
    };
    Hours { early, warm, event }
}
