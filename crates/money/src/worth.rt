// What energy is worth.
ghost use Rattle.std.specs.Prelude.{◌≡◌, ◌≤◌};
ghost use Rattle.money.specs.Price.{highest_price};
ghost use Rattle.money.specs.Worth.{rounded_worth, most_energy, worth_of};

use crate::price::bad_price;

// The worth of an energy to the nearest cent, halves up.
#[tactic(auto, using(crate::proofs::WorthLaws::worth_fits), unfolding(crate::specs::Worth::rounded_worth))]
pub(crate) fn rounded_worth(price: u32, energy: u64) -> u64
    requires { (price ≤ highest_price) × (energy ≤ most_energy) }
    ensures { result ≡ rounded_worth price energy }
{
    (energy * u64::from(price) + 9_000_000) / 18_000_000
}

// What an energy is worth to the nearest cent, halves up; 0 at a price that is refused, and for more energy than 100 events can have.
#[tactic(auto, using(crate::proofs::PriceLaws::price_laws))]
pub fn worth_of(price: u32, energy: u64) -> u64
    ensures { result ≡ worth_of price energy }
{
    if bad_price(price) {
        return 0;
    }
    if 150_000_000_000 < energy {
        return 0;
    }
    rounded_worth(price, energy)
}
