// One event, by the masks of a list.
ghost use Rattle.std.specs.Prelude.{◌≡◌};
ghost use Rattle.energy.specs.Line.{line_paper, event_answer};
ghost use Rattle.calendar.specs.declared.answers.Winter.{Winter};
ghost use Rattle.event_hours.specs.Days.{masks_of};
ghost use Rattle.probe.specs.Told.{fault_told, energy_told, event_of_year};

use energy::Event;
use notices::Notice;
use refusals::Rule;

// The line of an event, by the masks of a list.
fn line_of(
    winter: u32,
    book: &[u32],
    list: &[u32],
    day: u32,
    start: u32,
    end: u32,
) -> Result<Event, Rule>
    ensures { line_paper result ≡ event_of_year winter (λ (w : Winter). event_answer w book.now (masks_of list.now)
        (record { day = day; start = start; end = end })) }
{
    let w = calendar::winter_of(winter).ok_or(Rule::NoWinter)?;
    let masks = event_hours::masks_of(list);
    energy::settle_event(w, book, &masks, Notice { day, start, end })
}

// The code and place of an event, or the refusal.
#[unsafe(no_mangle)]
pub extern "C" fn probe_event_fault(
    winter: u32,
    book: &[u32],
    list: &[u32],
    day: u32,
    start: u32,
    end: u32,
) -> u64
    ensures { result ≡ fault_told (event_of_year winter (λ (w : Winter). event_answer w book.now (masks_of list.now)
        (record { day = day; start = start; end = end }))) }
{
    match line_of(winter, book, list, day, start, end) {
        Ok(event) => {
            let [code, place, _] = energy::line_numbers(event);
            65_536 * code + place
        }
        Err(rule) => u64::from(u32::from(rule)) << 32,
    }
}

// The energy of an event, 0 where it is unsettled or refused.
#[unsafe(no_mangle)]
pub extern "C" fn probe_event_energy(
    winter: u32,
    book: &[u32],
    list: &[u32],
    day: u32,
    start: u32,
    end: u32,
) -> u64
    ensures { result ≡ energy_told (event_of_year winter (λ (w : Winter). event_answer w book.now (masks_of list.now)
        (record { day = day; start = start; end = end }))) }
{
    line_of(winter, book, list, day, start, end).map_or(0, |event| event.unwrap_or(0))
}
