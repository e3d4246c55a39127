// What refuses the cents: the call itself, or an energy.
ghost use Rattle.std.specs.Prelude.{◌≡◌, ◌≤◌, length};
ghost use Rattle.laws.specs.Table.{first_of};
ghost use Rattle.refusals.specs.Refusals.{rule_paper, verdict_paper};
ghost use Rattle.money.specs.Refusals.{price_rows, energy_rows, cents_refusal};
ghost use Rattle.money.specs.Worth.{most_energies};

use crate::price::bad_price;
use refusals::{Refusal, Rule};

// How many energies are priced at most.
pub const MOST_ENERGIES: usize = 100;

// The largest energy that is priced.
const LARGEST_ENERGY: u32 = 1_500_000_000;

// The rule by which the cents are refused whatever the energies are: by the price, and by how many energies there are and how many numbers
// the output has.
#[tactic(auto, using(crate::proofs::RefusalLaws::guard_laws))]
pub fn call_refusal(price: u32, energies: usize, room: usize) -> Result<(), Rule>
    ensures { rule_paper result 0 ≡ first_of (price_rows price energies room) }
{
    if bad_price(price) {
        return Err(Rule::BadPrice);
    }
    if MOST_ENERGIES < energies {
        return Err(Rule::BadList);
    }
    if room < energies {
        return Err(Rule::ShortOutput);
    }
    Ok(())
}

// 7: the first energy that is too large. The first reference that is too high (41) has a function like this one in power: a public function for both
// could ask nothing of how many numbers there are, and then no place of theirs fits 32 bits.
#[tactic(auto, using(laws::proofs::FirstAbove::first_refuses, laws::proofs::FirstAbove::none_refuses))]
fn energies_refusal(energies: &[u32]) -> Result<(), Refusal>
    requires { length energies.now ≤ most_energies }
    ensures { verdict_paper result ≡ first_of (energy_rows energies.now) }
{
    match laws::first_above(LARGEST_ENERGY, energies) {
        Some(k) => Err(Rule::HighEnergy.at(k as u32)),
        None => Ok(()),
    }
}

// The refusal of the cents: the call's, else that of the first energy which is too large.
pub(crate) fn refusal_of(price: u32, energies: &[u32], room: usize) -> Result<(), Refusal>
    ensures { verdict_paper result ≡ cents_refusal price energies.now room }
{
    call_refusal(price, energies.len(), room)?;
    energies_refusal(energies)
}
