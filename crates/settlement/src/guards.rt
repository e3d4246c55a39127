// What refuses the call before a reading is looked at.
ghost use Rattle.std.specs.Prelude.{◌≡◌, ◌*◌, nat_lt};
ghost use Rattle.laws.specs.Table.{first_of};
ghost use Rattle.notices.specs.Notices.{count_in};
ghost use Rattle.refusals.specs.Refusals.{rule_paper};
ghost use Rattle.settlement.specs.Refusals.{call_rows};

use crate::lines::LINE_NUMBERS;
use refusals::Rule;

// Whether an output has too little room for a line of so many numbers for each notice, by how many numbers the list has.
pub fn short_output(line: usize, numbers: usize, room: usize) -> bool
    ensures { result ≡ nat_lt room (line * count_in numbers) }
{
    match notices::count_in(numbers).checked_mul(line) {
        Some(needed) => room < needed,
        None => true,
    }
}

// The rule by which the call is refused whatever its readings and notices are: by the winter, and by how many numbers the book, the list and
// the output have.
#[tactic(auto, using(crate::proofs::CallGuards::guard_laws), unfolding(crate::specs::Refusals::short_output))]
pub fn call_refusal(winter: u32, readings: usize, numbers: usize, room: usize) -> Result<(), Rule>
    ensures { rule_paper result 0 ≡ first_of (call_rows winter readings numbers room) }
{
    book::book_refusal(winter, readings)?;
    if schedule::bad_list(numbers) {
        return Err(Rule::BadList);
    }
    if short_output(LINE_NUMBERS, numbers, room) {
        return Err(Rule::ShortOutput);
    }
    Ok(())
}
