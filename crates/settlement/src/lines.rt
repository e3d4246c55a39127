// The lines of the energies.
ghost use Rattle.std.specs.Prelude.{◌≡◌, length};
ghost use Rattle.event_hours.specs.Days.{masks_of};
ghost use Rattle.laws.specs.Sums.{sum_to};
ghost use Rattle.notices.specs.Notices.{count_of};
ghost use Rattle.settlement.specs.Events.{event_in, energy_at};
ghost use Rattle.settlement.specs.Lines.{lines_in};
ghost use Rattle.settlement.specs.Energies.{Fits};

use crate::events::event_at;
use calendar::Winter;

// How many numbers a line has: code, place and energy.
pub const LINE_NUMBERS: usize = 3;

// How many numbers the lines of the longest list have.
pub const MOST_LINE_NUMBERS: usize = LINE_NUMBERS * notices::MOST_NOTICES;

// Puts the lines of an accepted list, and gives their energy.
pub(crate) fn put_lines(w: Winter, book: &[u32], list: &[u32], out: &mut [u64]) -> u64
    requires { Fits (count_of list.now) (length out.old) }
    ensures value { result ≡ sum_to (energy_at (event_in w book.now (masks_of list.now) list.now)) (count_of list.now) }
    ensures out_after { out.new ≡ lines_in (event_in w book.now (masks_of list.now) list.now)
        (count_of list.now) out.old }
{
    let masks = event_hours::masks_of(list);
    let mut energy: u64 = 0;
    // By an index into the output: it may be longer than the lines, and of what is written through its chunks a proof knows nothing.
    for k in 0..notices::count_in(list.len()) {
        let event = event_at(w, book, &masks, list, k);
        energy += event.unwrap_or(0);
        let at = LINE_NUMBERS * k;
        let line = energy::line_numbers(event);
        out[at..at + LINE_NUMBERS].copy_from_slice(&line);
    }
    energy
}
