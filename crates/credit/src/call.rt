// The settlement of a winter.
ghost use Rattle.std.specs.Prelude.{◌≡◌, length};
ghost use Rattle.credit.specs.Settlement.{settlement_paper, settlement, written};

use crate::guards::call_refusal;
use crate::lines::{Totals, put_lines};
use notices::Profile;
use refusals::{Refusal, Rule};

// Settles a winter: for each notice of the list a line of four numbers in the output (code, place, energy, cents), and the totals.
// A refused settlement writes nothing, and numbers past the last line stay as they are. The winter's facts are worked out once.
pub fn settle(
    winter: u32,
    book: &[u32],
    price: u32,
    list: &[u32],
    out: &mut [u64],
) -> Result<Totals, Refusal>
    ensures value { settlement_paper result ≡ settlement winter book.now price list.now (length out.old) }
    ensures out_after { out.new ≡ written winter book.now price list.now out.old }
{
    call_refusal(winter, book.len(), price, list.len(), out.len())?;
    let w = calendar::winter_of(winter).ok_or(Rule::NoWinter)?;
    schedule::check_in(w, Profile::Credit, list)?;
    Ok(put_lines(w, book, price, list, out))
}
