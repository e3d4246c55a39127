// What refuses a settlement before a reading is looked at.
ghost use Rattle.std.specs.Prelude.{◌≡◌};
ghost use Rattle.laws.specs.Table.{first_of};
ghost use Rattle.refusals.specs.Refusals.{rule_paper};
ghost use Rattle.credit.specs.Refusals.{call_rows};

use crate::lines::LINE_NUMBERS;
use refusals::Rule;

// The rule by which a settlement is refused whatever its readings and notices are: by winter and price, and by how many numbers the book, the
// list and the output have.
#[tactic(auto, using(crate::proofs::CallGuards::guard_laws), unfolding(crate::specs::Refusals::short_output))]
pub fn call_refusal(
    winter: u32,
    readings: usize,
    price: u32,
    numbers: usize,
    room: usize,
) -> Result<(), Rule>
    ensures { rule_paper result 0 ≡ first_of (call_rows winter readings price numbers room) }
{
    book::book_refusal(winter, readings)?;
    if money::bad_price(price) {
        return Err(Rule::BadPrice);
    }
    if schedule::bad_list(numbers) {
        return Err(Rule::BadList);
    }
    if settlement::short_output(LINE_NUMBERS, numbers, room) {
        return Err(Rule::ShortOutput);
    }
    Ok(())
}
