// What an event spared by its reference.
ghost use Rattle.std.specs.Prelude.{◌≡◌};
ghost use Rattle.energy.specs.Event.{event_paper};
ghost use Rattle.power.specs.Ready.{Ready};
ghost use Rattle.power.specs.Reduced.{reduced_paper, event_of, reduced_of};

use energy::Event;
use notices::Notice;

// An event, its energy in Wh, and its reduction in twelfths of a W.
#[derive(Clone, Copy)]
pub struct Reduced {
    pub event: Event,
    pub reduction: u64,
}

// The event of a notice, by its reference: its event hours are a run of places of the book.
#[tactic(auto, using(crate::proofs::EventLaws::event_laws))]
fn event_of(book: &[u32], reference: u32, n: Notice) -> Event
    requires { Ready reference n }
    ensures { event_paper result ≡ event_of book.now reference n }
{
    let from = book::hour_place(n.day, n.start) as u32;
    let to = book::hour_place(n.day, n.end) as u32;
    let fault = book::first_fault(book, from, to);
    let drawn = book::sum_of(book, from, to);
    let hours = notices::hours_of(n);
    let whole = u64::from(reference) * u64::from(hours);
    energy::by_fault(fault, whole.saturating_sub(drawn))
}

// The same with its reduction, which is whole since 3 and 4 divide 12 (rule 11.4).
#[tactic(auto, using(crate::proofs::EventLaws::reduced_laws))]
pub(crate) fn reduced_of(book: &[u32], reference: u32, n: Notice) -> Reduced
    requires { Ready reference n }
    ensures { reduced_paper result ≡ reduced_of book.now reference n }
{
    let event = event_of(book, reference, n);
    let hours = notices::hours_of(n);
    let reduction = 12 * event.unwrap_or(0) / u64::from(hours);
    Reduced { event, reduction }
}
