// The line of one event, by its six days.
ghost use Rattle.std.specs.Prelude.{◌≡◌, ◌∷◌, length};
ghost use Rattle.energy.specs.Asked.{asked_by};
ghost use Rattle.energy.specs.Event.{event_paper};
ghost use Rattle.energy.specs.HoursOf.{HoursIn};
ghost use Rattle.energy.specs.Line.{line_of};
ghost use Rattle.energy.specs.Parts.{numbers_of, parts_of, parts_energy, parts_line};
ghost use Rattle.energy.specs.Ready.{DaysReady, EventReady};
ghost use Rattle.references.specs.ReferenceDays.{free_in};

use crate::days::SixDays;
use crate::events::{Event, Unsettled, by_fault};
use crate::hours::{Hours, hours_of};
use crate::spared::spared;
use calendar::Winter;
use notices::Notice;
use references::reference_days;

impl SixDays<'_> {
    // The spared energy, from R, B, A and C.
    #[tactic(auto, unfolding(crate::specs::Parts::parts_energy))]
    fn energy(&self, hours: Hours) -> u64
        requires { HoursIn hours }
        ensures { result ≡ parts_energy hours self.now.event.readings.now (parts_of self.now.refs) }
    {
        let r = self.trimmed_sum(hours.event);
        let b = self.warm_trimmed(hours);
        let a = self.event.warm_drawn(hours);
        let c = self.event.drawn(hours.event);
        spared(hours.event.count(), hours.warm_count(), r, b, a, c)
    }

    // The line of the event. Nearly always all are readings, which a walk from hour to hour tells sooner than one from day to day.
    #[tactic(auto, using(crate::proofs::AllReadings::clean_line), unfolding(crate::specs::Parts::parts_line))]
    fn line(&self, hours: Hours) -> Event
        requires { DaysReady self.now hours }
        ensures { event_paper result ≡ parts_line self.now.event.number (numbers_of self.now.refs) hours
            self.now.event.readings.now (parts_of self.now.refs) }
    {
        let spared = self.energy(hours);
        let fault = if self.warm_readings(hours) & self.all_readings(hours.event) {
            None
        } else {
            self.needed_fault(hours)
        };
        by_fault(fault, spared)
    }
}

// The line of an event whose day is in the book and whose hours lie in a band: 20 comes before 21 and 22.
pub(crate) fn line_in(w: Winter, book: &[u32], masks: &[u32; 152], n: Notice) -> Event
    requires { EventReady w (length book.now) n }
    ensures { event_paper result ≡ line_of book.now (asked_by w (free_in masks.now) n) }
{
    let found = reference_days(w, masks, n.day, n.start);
    if found.count < 5 {
        return Err(Unsettled::FewDays);
    }
    let hours = hours_of(w, n.day, n.start, n.end);
    SixDays::fetch(w, book, n.day, found.days).line(hours)
}
