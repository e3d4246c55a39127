// The call on one event: what refuses it, and its line.
ghost use Rattle.std.specs.Prelude.{◌≡◌, false};
ghost use Rattle.calendar.specs.Days.{wrong_winter, in_period};
ghost use Rattle.energy.specs.Line.{line_paper, event_answer};

use crate::events::Event;
use crate::lines::line_in;
use calendar::Winter;
use notices::{Notice, Profile};
use refusals::Rule;

// Whether a day is in the winter period.
fn in_period(w: Winter, day: u32) -> bool
    requires { wrong_winter w ≡ false }
    ensures { result ≡ in_period w day }
{
    calendar::kind_of(w, day).is_ok_and(|kind| kind.period)
}

// Winter, book and masks stay three parameters: each caller has them apart, and a struct of them would be made for the call and opened here.
// Settles one event of a winter, by the book and the masks of all events: code, place and energy. A wrong winter, book length, day or
// hours are refused; any masks are taken as they are.
#[tactic(auto, using(crate::proofs::CallLaws::call_laws))]
pub fn settle_event(w: Winter, book: &[u32], masks: &[u32; 152], n: Notice) -> Result<Event, Rule>
    ensures { line_paper result ≡ event_answer w book.now masks.now n }
{
    if calendar::wrong_winter(w) {
        return Err(Rule::NoWinter);
    }
    if book::wrong_length(w.days, book.len()) {
        return Err(Rule::BadBook);
    }
    if !in_period(w, n.day) {
        return Err(Rule::OutsidePeriod);
    }
    notices::hours_verdict(Profile::Credit.figures(), n)?;
    Ok(line_in(w, book, masks, n))
}
