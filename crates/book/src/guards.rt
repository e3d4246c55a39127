// What refuses a call on a book before a reading is looked at.
ghost use Rattle.std.specs.Prelude.{◌≡◌};
ghost use Rattle.laws.specs.Table.{first_of};
ghost use Rattle.refusals.specs.Refusals.{rule_paper};
ghost use Rattle.book.specs.Refusals.{book_rows};

use crate::lengths::wrong_length;
use refusals::Rule;

// Refuses a call on a book of so many numbers: there is no such winter, or it is no book of it.
#[tactic(auto, using(crate::proofs::RefusalLaws::winter_told, crate::proofs::RefusalLaws::book_refused, crate::proofs::RefusalLaws::none_refused))]
pub fn book_refusal(winter: u32, readings: usize) -> Result<(), Rule>
    ensures { rule_paper result 0 ≡ first_of (book_rows winter readings) }
{
    let days = dates::winter_days(winter).ok_or(Rule::NoWinter)?;
    if wrong_length(days, readings) {
        return Err(Rule::BadBook);
    }
    Ok(())
}
