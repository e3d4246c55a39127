// The medium-power settlement of a winter.
ghost use Rattle.std.specs.Prelude.{◌≡◌, length};
ghost use Rattle.notices.specs.Notices.{count_of};
ghost use Rattle.power.specs.Lines.{power_lines_in};
ghost use Rattle.power.specs.Ready.{AllReady};
ghost use Rattle.power.specs.Reduced.{reduced_at};
ghost use Rattle.power.specs.Refusals.{total_numbers};
ghost use Rattle.power.specs.Settlement.{power_paper, totals_in, power_settlement, power_written};

use crate::guards::refusal_of;
use crate::lines::{Sums, put_lines};
use crate::rates::credit_of;
use refusals::Refusal;

// All reductions of a winter added up, how many events are settled, and the cents of the credit.
#[derive(Clone, Copy, Debug, PartialEq, Eq)]
pub struct PowerTotals {
    pub sum: u64,
    pub settled: u64,
    pub cents: u64,
}

// Puts the lines of an accepted list and gives the totals. The mean is over the settled events, which are not all.
fn settle_accepted(book: &[u32], list: &[u32], references: &[u32], out: &mut [u64]) -> PowerTotals
    requires { AllReady list.now references.now (length out.old) (count_of list.now) }
    ensures value { result ≡ totals_in (reduced_at book.now list.now references.now) (count_of list.now) }
    ensures out_after { out.new ≡ power_lines_in (reduced_at book.now list.now references.now)
        (count_of list.now) out.old }
{
    let Sums { sum, settled } = put_lines(book, list, references, out);
    let cents = credit_of(sum, settled);
    PowerTotals {
        sum,
        settled,
        cents,
    }
}

// Settles a winter of a medium-power site: for each notice of the list a line of four numbers in the output (code, place, energy,
// reduction), and the totals. A refused settlement writes nothing, and numbers past the last line stay as they are.
pub fn settle(
    winter: u32,
    book: &[u32],
    list: &[u32],
    references: &[u32],
    out: &mut [u64],
) -> Result<PowerTotals, Refusal>
    ensures value { power_paper result ≡ power_settlement winter book.now list.now references.now (length out.old) total_numbers }
    ensures out_after { out.new ≡ power_written winter book.now list.now references.now out.old total_numbers }
{
    refusal_of(winter, book.len(), list, references, out.len())?;
    Ok(settle_accepted(book, list, references, out))
}
