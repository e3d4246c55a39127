// The cents on bytes. The energies and their cents are held in arrays of its own.
ghost use Rattle.std.specs.Prelude.{◌≡◌, length};
ghost use Rattle.refusals.specs.Packed.{packed};
ghost use Rattle.boundary.specs.CentsCall.{cents_call, cents_bytes};
ghost use Rattle.boundary.specs.CentsWhole.{CentsLengths, PricedBytes};
ghost use Rattle.boundary.specs.Whole.{numbers_in_whole};

use refusals::Refusal;

// Prices the energies of bytes of the right lengths, with room of its own for the numbers, and writes the bytes of their cents.
fn cents_whole(price: u32, energies: &[u8], out: &mut [u8]) -> Result<(), Refusal>
    requires { CentsLengths (length energies.now) (length out.old) }
    ensures { PricedBytes price (numbers_in_whole energies.now) out.old (packed result) out.new }
{
    let mut numbers = [0; money::MOST_ENERGIES];
    let mut room = [0; money::MOST_ENERGIES];
    let energies = wire::read_front(energies, &mut numbers);
    let cents = &mut room[..energies.len()];
    money::cents(price, energies, cents)?;
    wire::write_numbers(cents, out);
    Ok(())
}

// The same from bytes of any lengths.
fn cents_told(price: u32, energies: &[u8], out: &mut [u8]) -> Result<(), Refusal>
    ensures value { packed result ≡ cents_call price energies.now (length out.old) }
    ensures out_after { out.new ≡ cents_bytes price energies.now out.old }
{
    money::call_refusal(price, wire::numbers_in(energies.len()), out.len() / 8)?;
    cents_whole(price, energies, out)
}

// The cents of energies that are lent as bytes, into the bytes of an output: 0, or number and place in one (rule 9.5).
pub fn cents_bytes(price: u32, energies: &[u8], out: &mut [u8]) -> u32
    ensures value { result ≡ cents_call price energies.now (length out.old) }
    ensures out_after { out.new ≡ cents_bytes price energies.now out.old }
{
    refusals::packed(cents_told(price, energies, out))
}
