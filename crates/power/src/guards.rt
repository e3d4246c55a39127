// What refuses a medium-power settlement: the call itself, a reference, a notice.
ghost use Rattle.std.specs.Prelude.{◌≡◌, ◌≤◌, length};
ghost use Rattle.laws.specs.Table.{first_of};
ghost use Rattle.notices.specs.Notices.{most_notices};
ghost use Rattle.refusals.specs.Refusals.{rule_paper, verdict_paper};
ghost use Rattle.power.specs.Refusals.{total_numbers, short_room, wrong_references, power_call_rows, references_table, power_refusal};

use crate::lines::LINE_NUMBERS;
use notices::Profile;
use refusals::{Refusal, Rule};

// How many totals there are: the sum of the reductions, the settled events and the credit.
pub const TOTAL_NUMBERS: usize = 3;

// The largest reference, in W.
const LARGEST_REFERENCE: u32 = 10_000_000;

// 6: the output has too little room for the lines, or for the totals (rules 4.8 and 9.9).
#[tactic(auto, unfolding(crate::specs::Refusals::short_room))]
fn short_room(numbers: usize, room: usize, totals: usize) -> bool
    ensures { result ≡ short_room numbers room totals }
{
    settlement::short_output(LINE_NUMBERS, numbers, room) | (totals < TOTAL_NUMBERS)
}

// 40: there is not one reference for each notice.
#[tactic(auto, unfolding(crate::specs::Refusals::wrong_references))]
fn wrong_references(numbers: usize, given: usize) -> bool
    ensures { result ≡ wrong_references numbers given }
{
    given != notices::count_in(numbers)
}

// The rule by which a medium-power settlement is refused whatever its readings, references and notices are: by the winter, and by how many
// numbers the book, the list, the output, the totals and the references have.
#[tactic(auto, using(crate::proofs::CallGuards::guard_laws))]
pub fn call_refusal(
    winter: u32,
    readings: usize,
    numbers: usize,
    room: usize,
    totals: usize,
    given: usize,
) -> Result<(), Rule>
    ensures { rule_paper result 0 ≡ first_of (power_call_rows winter readings numbers room totals given) }
{
    book::book_refusal(winter, readings)?;
    if schedule::bad_list(numbers) {
        return Err(Rule::BadList);
    }
    if short_room(numbers, room, totals) {
        return Err(Rule::ShortOutput);
    }
    if wrong_references(numbers, given) {
        return Err(Rule::WrongReferences);
    }
    Ok(())
}

// 41: the first reference that is too large. By itself beside money's function of energies, for the reason given there.
fn references_refusal(references: &[u32]) -> Result<(), Refusal>
    requires { length references.now ≤ most_notices }
    ensures { verdict_paper result ≡ first_of (references_table references.now) }
{
    match laws::first_above(LARGEST_REFERENCE, references) {
        Some(k) => Err(Rule::HighReference.at(k as u32)),
        None => Ok(()),
    }
}

// The refusal of a settlement: the call's, else that of the first reference, else that of the notices under profile 2.
pub(crate) fn refusal_of(
    winter: u32,
    readings: usize,
    list: &[u32],
    references: &[u32],
    room: usize,
) -> Result<(), Refusal>
    ensures { verdict_paper result ≡ power_refusal winter readings list.now references.now room total_numbers }
{
    let given = references.len();
    call_refusal(winter, readings, list.len(), room, TOTAL_NUMBERS, given)?;
    references_refusal(references)?;
    let w = calendar::winter_of(winter).ok_or(Rule::NoWinter)?;
    schedule::check_in(w, Profile::PowerOption, list)
}
