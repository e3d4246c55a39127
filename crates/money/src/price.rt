// The price of energy.
ghost use Rattle.std.specs.Prelude.{◌≡◌};
ghost use Rattle.money.specs.Price.{bad_price};

// 3: whether a price is outside 1 to 1,000,000.
#[tactic(auto, unfolding(crate::specs::Price::bad_price))]
pub fn bad_price(price: u32) -> bool
    ensures { result ≡ bad_price price }
{
    // Two comparisons: as a range it was tried, and makes one at every line of a settlement.
    (price < 1) | (1_000_000 < price)
}
