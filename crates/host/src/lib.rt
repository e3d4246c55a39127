// The three calls of rule 9.1, on numbers and lent bytes. No more than the names.
#![tactic(auto)]

ghost use Rattle.std.specs.Prelude.{◌≡◌, length};
ghost use Rattle.boundary.specs.Calls.{check_call, settle_call, settle_bytes};
ghost use Rattle.power_boundary.specs.PowerCalls.{power_call, power_bytes, total_bytes};

// Whether a list of notices stands under a profile in a winter: 0, or number and place in one (rule 9.5).
#[unsafe(no_mangle)]
pub extern "C" fn ibisladder_check(winter: u32, profile: u32, list: &[u8]) -> u32
    ensures { result ≡ check_call winter profile list.now }
{
    boundary::check_bytes(winter, profile, list)
}

// Settles a winter into a lent output: 0, or number and place in one (rule 9.5).
#[unsafe(no_mangle)]
pub extern "C" fn ibisladder_settle(
    winter: u32,
    book: &[u8],
    price: u32,
    list: &[u8],
    out: &mut [u8],
) -> u32
    ensures value { result ≡ settle_call winter book.now price list.now (length out.old) }
    ensures out_after { out.new ≡ settle_bytes winter book.now price list.now out.old }
{
    boundary::settle_bytes(winter, book, price, list, out)
}

// Settles a winter of a medium-power site into a lent output and lent totals: 0, or number and place in one (rule 9.5).
#[unsafe(no_mangle)]
pub extern "C" fn ibisladder_power(
    winter: u32,
    book: &[u8],
    list: &[u8],
    references: &[u8],
    out: &mut [u8],
    totals: &mut [u8],
) -> u32
    ensures value { result ≡ power_call winter book.now list.now references.now (length out.old)
        (length totals.old) }
    ensures out_after { out.new ≡ power_bytes winter book.now list.now references.now out.old
        totals.old }
    ensures totals_after { totals.new ≡ total_bytes winter book.now list.now references.now out.old
        totals.old }
{
    power_boundary::power_bytes(winter, book, list, references, out, totals)
}
