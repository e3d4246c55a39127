// The reference days of an event.
ghost use Rattle.std.specs.Prelude.{◌≡◌, ◌<◌, [], false};
ghost use Rattle.references.specs.ReferenceDays.{free_in, reference_days, refs_of, refs_in};
ghost use Rattle.references.specs.Search.{past_events, lacking_day, free_serves, BookDay, OnDay};
ghost use Rattle.calendar.specs.Days.{wrong_winter};

use calendar::{DAYS_FROM_8_MARCH, Kind, PASSED_HOUR, Winter};

// Reference days, nearest first: the first `count` of `days`, and zeros behind them.
#[derive(Clone, Copy, Debug, PartialEq, Eq)]
pub struct Refs {
    pub days: [u32; 5],
    pub count: usize,
}

// The day that lacks a warm-up hour of an event: the Sunday the clocks go forward, where the passed hour begins five, four or three hours
// before its start. Of any other event it is none, and none need be asked for before that Sunday can be: up to 8 March. That the winter is one stays a
// `requires`: a type for it would be made for this call and opened here.
fn lacking_day(w: Winter, day: u32, start: u32) -> Option<u32>
    requires { wrong_winter w ≡ false }
    ensures { result ≡ lacking_day w day start }
{
    if !(PASSED_HOUR + 3..=PASSED_HOUR + 5).contains(&start) || day <= w.days - DAYS_FROM_8_MARCH {
        return None;
    }
    calendar::clocks_forward(w)
}

// Whether a day that carries no event serves as reference: of the event day's kind, not excluded, and not lacking a warm-up hour.
fn free_day_serves(w: Winter, event: Kind, lacking: Option<u32>, d: u32) -> bool
    requires { BookDay w d }
    ensures { result ≡ free_serves w event.weekend lacking d }
{
    calendar::kind_of(w, d).is_ok_and(|kind| kind.weekend == event.weekend
        && !kind.excluded
        && lacking != Some(d))
}

// Past the days right before a day that carry an event. They serve no event, and before a late one there are many.
#[tactic(auto, using(crate::proofs::ReferenceLaws::past_laws))]
fn past_events(masks: &[u32; 152], day: u32) -> u32
    requires { day < 152 }
    ensures { result ≡ past_events (free_in masks.now) day }
{
    for d in (0..day).rev() {
        if masks[d as usize] == 0 {
            return d + 1;
        }
    }
    0
}

// The reference days of an event (rule 5.6), or as many as there are. It stops at the fifth.
#[tactic(auto, using(calendar::proofs::Promise::days_few, crate::proofs::PastEvents::past_le))]
fn nearest_before(w: Winter, event: Kind, masks: &[u32; 152], day: u32, start: u32) -> Refs
    requires { OnDay w day event }
    ensures { result ≡ refs_of (reference_days w (free_in masks.now) day start) }
{
    let lacking = lacking_day(w, day, start);
    let mut days = [0; 5];
    let mut count = 0;
    let mut d = past_events(masks, day);
    // Not a `for` over all days, which was tried and is slower: past days that carry an event it jumps.
    while 0 < d && count < 5 {
        d -= 1;
        if free_day_serves(w, event, lacking, d) {
            days[count] = d;
            count += 1;
        }
        d = past_events(masks, d);
    }
    Refs { days, count }
}

// No days at all.
fn no_refs() -> Refs
    ensures { result ≡ refs_of [] }
{
    Refs {
        days: [0; 5],
        count: 0,
    }
}

// The reference days of an event that starts at an hour of a day, by the masks of all events. A wrong winter or a day outside its book
// has none.
pub fn reference_days(w: Winter, masks: &[u32; 152], day: u32, start: u32) -> Refs
    ensures { result ≡ refs_in w (free_in masks.now) day start }
{
    match calendar::kind_of(w, day) {
        Ok(kind) => nearest_before(w, kind, masks, day, start),
        Err(_) => no_refs(),
    }
}
