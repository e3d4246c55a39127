// What a line says of an event.
ghost use Rattle.std.specs.Prelude.{◌≡◌};
ghost use Rattle.energy.specs.Event.{event_paper, event_numbers};
ghost use Rattle.energy.specs.Line.{by_fault};

use book::Fault;

// Why an event is left unsettled, and in which place of the book.
#[derive(Clone, Copy, Debug, PartialEq, Eq)]
pub enum Unsettled {
    FewDays,
    Missing(u32),
    TooLarge(u32),
}

// An event: its spared energy, in eighteenths of a Wh for the winter credit and in Wh for a medium-power site, or why it is left unsettled.
pub type Event = Result<u64, Unsettled>;

// An event by the first fault among its needed readings, or by its energy where there is none.
pub fn by_fault(fault: Option<Fault>, energy: u64) -> Event
    ensures { event_paper result ≡ by_fault fault energy }
{
    match fault {
        None => Ok(energy),
        Some(Fault::Missing(place)) => Err(Unsettled::Missing(place)),
        Some(Fault::TooLarge(place)) => Err(Unsettled::TooLarge(place)),
    }
}

// The three numbers that the line of an event begins with: its code, its place and its energy.
pub fn line_numbers(event: Event) -> [u64; 3]
    ensures { result ≡ event_numbers (event_paper event) }
{
    match event {
        Ok(energy) => [0, 0, energy],
        Err(Unsettled::FewDays) => [20, 0, 0],
        Err(Unsettled::Missing(place)) => [21, u64::from(place), 0],
        Err(Unsettled::TooLarge(place)) => [22, u64::from(place), 0],
    }
}
