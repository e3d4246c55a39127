// The cents of energies in a row.
ghost use Rattle.std.specs.Prelude.{◌≡◌, length};
ghost use Rattle.money.specs.Cents.{cents_in, total_cents};
ghost use Rattle.money.specs.Pricing.{Priceable, priced_paper, cents_of, cents_written};

use crate::guards::refusal_of;
use crate::worth::rounded_worth;
use refusals::Refusal;

// Puts the cents of each energy, and gives their total. What the energies before were worth is carried on, so that cents are rounded on the
// sum and never energy by energy (rule 7.4).
fn put_cents(price: u32, energies: &[u32], out: &mut [u64]) -> u64
    requires { Priceable price energies.now (length out.old) }
    ensures value { result ≡ total_cents price energies.now }
    ensures out_after { out.new ≡ cents_in price energies.now out.old }
{
    let mut energy: u64 = 0;
    let mut worth: u64 = 0;
    // By an index into the output: it may be longer than the energies, and of what a `zip` of `iter_mut` writes a proof knows nothing.
    for (k, &one) in energies.iter().enumerate() {
        let more = energy + one as u64;
        let next = rounded_worth(price, more);
        out[k] = next - worth;
        energy = more;
        worth = next;
    }
    worth
}

// The cents of energies in a row at one price: for each energy one number in the output, and their total. A refused call writes nothing, and
// numbers past the last energy's stay as they are.
pub fn cents(price: u32, energies: &[u32], out: &mut [u64]) -> Result<u64, Refusal>
    ensures value { priced_paper result ≡ cents_of price energies.now (length out.old) }
    ensures out_after { out.new ≡ cents_written price energies.now out.old }
{
    refusal_of(price, energies, out.len())?;
    Ok(put_cents(price, energies, out))
}
