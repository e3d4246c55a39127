// The first fault among the readings that an event needs.
ghost use Rattle.std.specs.Prelude.{◌≡◌, ◌∷◌, ◌++◌, Some, None};
ghost use Rattle.book.specs.Part.{fault_on};
ghost use Rattle.book.specs.Readings.{first_fault};
ghost use Rattle.energy.specs.HoursOf.{run_hours, warm_run, event_run};
ghost use Rattle.energy.specs.Parts.{numbers_of, parts_of, highest_at, all_readings, parts_fault};
ghost use Rattle.energy.specs.Ready.{HourTold, DayReady, DaysReady};

use crate::days::{Day, SixDays, readings_at};
use crate::hours::{Hours, Run};
use crate::trimmed::largest;
use book::Fault;

// A fault at an hour of a day's part, told at its place in the book.
fn placed(fault: Fault, day: u32) -> Fault
    requires { HourTold day (Some fault) }
    ensures { Some result ≡ fault_on day (Some fault) }
{
    match fault {
        Fault::Missing(hour) => Fault::Missing(book::hour_place(day, hour) as u32),
        Fault::TooLarge(hour) => Fault::TooLarge(book::hour_place(day, hour) as u32),
    }
}

impl Day<'_> {
    // The first fault among the day's readings of a run of hours, told at its hour.
    fn run_fault(&self, hours: Run) -> Option<Fault>
        ensures { result ≡ first_fault self.now.readings.now (run_hours hours) }
    {
        let readings = self.readings;
        book::first_fault(readings, hours.from, hours.to)
    }

    // And of the needed hours: the warm-up hours, and then the event's.
    #[tactic(auto, using(crate::proofs::DayFaults::three_runs))]
    fn hour_fault(&self, hours: Hours) -> Option<Fault>
        ensures { result ≡ first_fault self.now.readings.now (warm_run hours ++ event_run hours) }
    {
        self.run_fault(hours.early)
            .or(self.run_fault(hours.warm))
            .or(self.run_fault(hours.event))
    }

    // The same, told at its place in the book.
    fn fault(&self, hours: Hours) -> Option<Fault>
        requires { DayReady self.now.number hours }
        ensures { result ≡ fault_on self.now.number (first_fault self.now.readings.now (warm_run hours ++ event_run hours)) }
    {
        let fault = self.hour_fault(hours)?;
        Some(placed(fault, self.number))
    }
}

impl SixDays<'_> {
    // The highest of an hour's six readings.
    #[tactic(auto, using(crate::proofs::TrimmedLaws::largest_more), unfolding(crate::specs::Parts::highest_at))]
    fn highest_at(&self, hour: u32) -> u32
        ensures { result ≡ highest_at
            (self.now.event.readings.now ∷ parts_of self.now.refs) hour }
    {
        self.event
            .reading(hour)
            .max(largest(&readings_at(&self.refs, hour)))
    }

    // Whether the six days have readings at all hours of a run.
    #[tactic(auto, using(crate::proofs::AllReadings::one_reading, crate::proofs::AllReadings::one_not, crate::proofs::AllReadings::no_hour))]
    pub(crate) fn all_readings(&self, hours: Run) -> bool
        ensures { result ≡ all_readings
            (self.now.event.readings.now ∷ parts_of self.now.refs) (run_hours hours) }
    {
        // By a `for`, since `all` over the range was tried, and by it a settlement of 100 notices takes 10 % longer.
        for hour in hours.from..hours.to {
            if !book::is_reading(self.highest_at(hour)) {
                return false;
            }
        }
        true
    }

    // Whether the six days have readings at all warm-up hours.
    #[tactic(auto, using(crate::proofs::AllReadings::warm_all))]
    pub(crate) fn warm_readings(&self, hours: Hours) -> bool
        ensures { result ≡ all_readings
            (self.now.event.readings.now ∷ parts_of self.now.refs) (warm_run hours) }
    {
        self.all_readings(hours.early) & self.all_readings(hours.warm)
    }

    // The first fault among all needed readings: the event day's, and then those of the five reference days, nearest first.
    #[tactic(auto, using(crate::proofs::DayFaults::day_by_day))]
    pub(crate) fn needed_fault(&self, hours: Hours) -> Option<Fault>
        requires { DaysReady self.now hours }
        ensures { result ≡ parts_fault (warm_run hours ++ event_run hours) None
            (self.now.event.number ∷ numbers_of self.now.refs)
            (self.now.event.readings.now ∷ parts_of self.now.refs) }
    {
        let fault = self.event.fault(hours);
        if fault.is_some() {
            return fault;
        }
        for day in &self.refs {
            let fault = day.fault(hours);
            if fault.is_some() {
                return fault;
            }
        }
        None
    }
}
