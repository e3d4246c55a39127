// The rates of effective power, and the credit. A power is the mean of reductions: their sum and the count of settled events, never divided.
ghost use Rattle.std.specs.Prelude.{◌≡◌};
ghost use Rattle.power.specs.Credit.{credit_of};
ghost use Rattle.power.specs.Rates.{rate_of};
ghost use Rattle.power.specs.Ready.{MeanFits};

// The rows of rule 11.8's table above its first: up to and with so many kW, so many thousandths of a dollar a kW; and the rate above them all.
const RATES: [(u64, u64); 4] = [
    (199, 66_690),
    (599, 61_560),
    (1_199, 56_430),
    (1_799, 51_300),
];

const LAST_RATE: u64 = 46_170;

// Sum and count stay two parameters of this and of `credit_of`: the definitions take them apart, and `Sums` is what a walk has so far.
// The rate of a power, in thousandths of a dollar a kW: the table of rule 11.8, row by row. A kW is 12,000 twelfths of a W for each event.
#[tactic(auto, using(crate::proofs::RateLaws::rate_laws))]
fn rate_of(sum: u64, count: u64) -> u64
    requires { MeanFits sum count }
    ensures { result ≡ rate_of sum count }
{
    let kilowatt = 12_000 * count;
    if sum < 15 * kilowatt {
        return 0;
    }
    for &(last, rate) in &RATES {
        if sum <= last * kilowatt {
            return rate;
        }
    }
    LAST_RATE
}

// The credit in cents: the rate covers the whole power, and the one rounding is of the exact fraction (rule 11.9).
#[tactic(auto, using(crate::proofs::CreditLaws::credit_laws))]
pub(crate) fn credit_of(sum: u64, count: u64) -> u64
    requires { MeanFits sum count }
    ensures { result ≡ credit_of sum count }
{
    if count == 0 {
        return 0;
    }
    let rate = rate_of(sum, count);
    let parts = 120_000 * count;
    (sum * rate + parts / 2) / parts
}
