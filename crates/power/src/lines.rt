// The lines of a medium-power settlement.
ghost use Rattle.std.specs.Prelude.{◌≡◌, length};
ghost use Rattle.notices.specs.Notices.{count_of};
ghost use Rattle.power.specs.Lines.{sums_of, power_lines_in};
ghost use Rattle.power.specs.Ready.{AllReady};
ghost use Rattle.power.specs.Reduced.{reduced_at};

use crate::events::reduced_of;

// How many numbers a line has: code, place, energy and reduction.
pub const LINE_NUMBERS: usize = 4;

// How many numbers the lines of the longest list have.
pub const MOST_LINE_NUMBERS: usize = LINE_NUMBERS * notices::MOST_NOTICES;

// The sum of the reductions of some lines, and how many of them are settled.
#[derive(Clone, Copy)]
pub(crate) struct Sums {
    pub sum: u64,
    pub settled: u64,
}

// Puts the lines of an accepted list, each notice with its reference, and gives the sum of their reductions and how many of them are settled.
pub(crate) fn put_lines(book: &[u32], list: &[u32], references: &[u32], out: &mut [u64]) -> Sums
    requires { AllReady list.now references.now (length out.old) (count_of list.now) }
    ensures value { result ≡ sums_of (reduced_at book.now list.now references.now) (count_of list.now) }
    ensures out_after { out.new ≡ power_lines_in (reduced_at book.now list.now references.now) (count_of list.now) out.old }
{
    let mut sum: u64 = 0;
    let mut settled: u64 = 0;
    // By an index into the output, and by itself beside credit's walk, for that one's reasons; its lines are of another event.
    for (k, &reference) in references.iter().enumerate() {
        let r = reduced_of(book, reference, notices::notice_at(list, k));
        let [code, place, energy] = energy::line_numbers(r.event);
        let at = LINE_NUMBERS * k;
        let line = [code, place, energy, r.reduction];
        out[at..at + LINE_NUMBERS].copy_from_slice(&line);
        sum += r.reduction;
        settled += u64::from(r.event.is_ok());
    }
    Sums { sum, settled }
}
