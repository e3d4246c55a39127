// The events of a winter's notices.
ghost use Rattle.std.specs.Prelude.{◌≡◌};
ghost use Rattle.energy.specs.Event.{event_paper};
ghost use Rattle.settlement.specs.Events.{event_in};

use calendar::Winter;
use energy::Event;

// What stands for the event of a notice that is refused. It is never an accepted list's, and says nothing.
const NO_EVENT: Event = Ok(0);

// The event that the notice at index k is, its start and length taken from its day's bits. Where winter, book, masks, list and index make no
// event it says nothing. Winter, book and masks stay three parameters, as in `settle_event`.
#[tactic(auto, using(crate::proofs::EventLaws::event_or_none), unfolding(crate::specs::Events::event_in))]
pub fn event_at(w: Winter, book: &[u32], masks: &[u32; 152], list: &[u32], k: usize) -> Event
    ensures { event_paper result ≡ event_in w book.now masks.now list.now k }
{
    let n = event_hours::event_on(masks, notices::notice_at(list, k));
    energy::settle_event(w, book, masks, n).unwrap_or(NO_EVENT)
}
