// The lines of a settlement.
ghost use Rattle.std.specs.Prelude.{◌≡◌, length};
ghost use Rattle.event_hours.specs.Days.{masks_of};
ghost use Rattle.notices.specs.Notices.{count_of};
ghost use Rattle.settlement.specs.Events.{event_in};
ghost use Rattle.credit.specs.Settlement.{lines_in, totals_in, Fits};

use calendar::Winter;

// How many numbers a line has: code, place, energy and cents.
pub const LINE_NUMBERS: usize = 4;

// How many numbers the lines of the longest list have.
pub const MOST_LINE_NUMBERS: usize = LINE_NUMBERS * notices::MOST_NOTICES;

// What all events of a winter spared, and what that is worth.
#[derive(Clone, Copy, Debug, PartialEq, Eq)]
pub struct Totals {
    pub energy: u64,
    pub cents: u64,
}

// Puts the lines of an accepted list, and gives the totals. What the lines before were worth is carried on, so that cents are rounded on the
// sum and never line by line.
// Not by settlement's walk: a walk for both would be a public function, which may not ask for room, and its closure would carry the worth.
pub(crate) fn put_lines(
    w: Winter,
    book: &[u32],
    price: u32,
    list: &[u32],
    out: &mut [u64],
) -> Totals
    requires { Fits price (count_of list.now) (length out.old) }
    ensures value { result ≡ totals_in price (event_in w book.now (masks_of list.now) list.now) (count_of list.now) }
    ensures out_after { out.new ≡ lines_in price (event_in w book.now (masks_of list.now) list.now)
        (count_of list.now) out.old }
{
    let masks = event_hours::masks_of(list);
    let mut energy: u64 = 0;
    let mut cents: u64 = 0;
    // By an index into the output: it may be longer than the lines, and of what is written through its chunks a proof knows nothing.
    for k in 0..notices::count_in(list.len()) {
        let event = settlement::event_at(w, book, &masks, list, k);
        let [code, place, spared] = energy::line_numbers(event);
        energy += spared;
        let worth = money::worth_of(price, energy);
        let at = LINE_NUMBERS * k;
        let line = [code, place, spared, worth - cents];
        out[at..at + LINE_NUMBERS].copy_from_slice(&line);
        cents = worth;
    }
    Totals { energy, cents }
}
