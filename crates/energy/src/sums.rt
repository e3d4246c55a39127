// The sums over hours: R and B of T, and A of what the event's day drew.
ghost use Rattle.std.specs.Prelude.{◌≡◌};
ghost use Rattle.book.specs.Readings.{reading_at, RunSum};
ghost use Rattle.energy.specs.HoursOf.{RunIn, HoursIn};
ghost use Rattle.energy.specs.Parts.{trimmed_in, parts_of};
ghost use Rattle.energy.specs.Ready.{TrimmedSum, WarmSum};

use crate::days::{Day, SixDays, readings_at};
use crate::hours::{Hours, Run};
use crate::trimmed::trimmed_of;

impl SixDays<'_> {
    // T over the hours of a run: R, or a part of B.
    #[tactic(auto, using(book::proofs::SumLaws::sum_none))]
    pub(crate) fn trimmed_sum(&self, hours: Run) -> u64
        requires { RunIn hours }
        ensures { TrimmedSum (parts_of self.now.refs) hours result }
    {
        // By a `for`: of `map` and `sum` over the range, the proof that the sum is below 2^40 was tried and did not close.
        let mut sum: u64 = 0;
        for hour in hours.from..hours.to {
            sum += trimmed_of(readings_at(&self.refs, hour));
        }
        sum
    }

    // B: T over the warm-up hours.
    #[tactic(auto, using(crate::proofs::HourLaws::warm_sum))]
    pub(crate) fn warm_trimmed(&self, hours: Hours) -> u64
        requires { HoursIn hours }
        ensures { WarmSum (trimmed_in (parts_of self.now.refs)) hours result }
    {
        self.trimmed_sum(hours.early) + self.trimmed_sum(hours.warm)
    }
}

impl Day<'_> {
    // What the day drew over the hours of a run.
    pub(crate) fn drawn(&self, hours: Run) -> u64
        ensures { RunSum self.now.readings.now hours.from hours.to result }
    {
        let readings = self.readings;
        book::sum_of(readings, hours.from, hours.to)
    }

    // A: what it drew in its warm-up hours.
    #[tactic(auto, using(crate::proofs::HourLaws::warm_sum))]
    pub(crate) fn warm_drawn(&self, hours: Hours) -> u64
        requires { HoursIn hours }
        ensures { WarmSum (reading_at self.now.readings.now) hours result }
    {
        self.drawn(hours.early) + self.drawn(hours.warm)
    }
}
