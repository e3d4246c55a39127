// The energies of a winter.
ghost use Rattle.std.specs.Prelude.{◌≡◌, length};
ghost use Rattle.settlement.specs.Energies.{spared_paper, energies_of, energies_written};

use crate::guards::call_refusal;
use crate::lines::put_lines;
use notices::Profile;
use refusals::{Refusal, Rule};

// The energies of a winter: for each notice of the list a line of three numbers in the output (code, place, energy), and their total.
// A refused call writes nothing, and numbers past the last line stay as they are. The winter's facts are worked out once.
pub fn energies(winter: u32, book: &[u32], list: &[u32], out: &mut [u64]) -> Result<u64, Refusal>
    ensures value { spared_paper result ≡ energies_of winter book.now list.now (length out.old) }
    ensures out_after { out.new ≡ energies_written winter book.now list.now out.old }
{
    call_refusal(winter, book.len(), list.len(), out.len())?;
    let w = calendar::winter_of(winter).ok_or(Rule::NoWinter)?;
    schedule::check_in(w, Profile::Credit, list)?;
    Ok(put_lines(w, book, list, out))
}
