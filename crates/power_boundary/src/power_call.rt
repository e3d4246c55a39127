// The medium-power settlement on bytes. The numbers are held in arrays of its own: the book's, the list's, the references' and the lines'.
ghost use Rattle.std.specs.Prelude.{◌≡◌, length};
ghost use Rattle.refusals.specs.Packed.{packed};
ghost use Rattle.power_boundary.specs.PowerCalls.{power_call, power_bytes, total_bytes};
ghost use Rattle.power_boundary.specs.PowerWhole.{PowerLengths, PowerSettled};
ghost use Rattle.boundary.specs.Whole.{numbers_in_whole};

use refusals::Refusal;

// The parameters stay apart as C lends them to `ibisladder_power`.
// Settles what bytes of the right lengths stand for, with room of its own for the numbers, and writes the bytes of the lines and of the totals.
// By itself beside the boundary's `settle_whole`: it has an array and an output more, and its own lines and call.
fn power_whole(
    winter: u32,
    book: &[u8],
    list: &[u8],
    references: &[u8],
    out: &mut [u8],
    totals: &mut [u8],
) -> Result<(), Refusal>
    requires { PowerLengths (length book.now) (length list.now) (length references.now) (length out.old) (length totals.old) }
    ensures { PowerSettled winter (numbers_in_whole book.now) (numbers_in_whole list.now) (numbers_in_whole references.now)
        out.old totals.old (packed result) out.new totals.new }
{
    let mut readings = [0; book::MOST_READINGS];
    let mut numbers = [0; notices::LONGEST_LIST];
    let mut powers = [0; notices::MOST_NOTICES];
    let mut room = [0; power::MOST_LINE_NUMBERS];
    let book = wire::read_front(book, &mut readings);
    let list = wire::read_front(list, &mut numbers);
    let references = wire::read_front(references, &mut powers);
    let lines = &mut room[..power::LINE_NUMBERS * notices::count_in(list.len())];
    let s = power::settle(winter, book, list, references, lines)?;
    wire::write_numbers(lines, out);
    wire::write_numbers(&[s.sum, s.settled, s.cents], totals);
    Ok(())
}

// The same from bytes of any lengths.
fn power_told(
    winter: u32,
    book: &[u8],
    list: &[u8],
    references: &[u8],
    out: &mut [u8],
    totals: &mut [u8],
) -> Result<(), Refusal>
    ensures value { packed result ≡ power_call winter book.now list.now references.now (length out.old)
        (length totals.old) }
    ensures out_after { out.new ≡ power_bytes winter book.now list.now references.now out.old
        totals.old }
    ensures totals_after { totals.new ≡ total_bytes winter book.now list.now references.now out.old
        totals.old }
{
    let readings = wire::numbers_in(book.len());
    let numbers = wire::numbers_in(list.len());
    let given = wire::numbers_in(references.len());
    power::call_refusal(
        winter,
        readings,
        numbers,
        out.len() / 8,
        totals.len() / 8,
        given,
    )?;
    power_whole(winter, book, list, references, out, totals)
}

// Settles a winter of a medium-power site, whose book, list and references are lent as bytes, into the bytes of an output and of totals: 0,
// or number and place in one (rule 9.5).
pub fn power_bytes(
    winter: u32,
    book: &[u8],
    list: &[u8],
    references: &[u8],
    out: &mut [u8],
    totals: &mut [u8],
) -> u32
    ensures value { result ≡ power_call winter book.now list.now references.now (length out.old)
        (length totals.old) }
    ensures out_after { out.new ≡ power_bytes winter book.now list.now references.now out.old
        totals.old }
    ensures totals_after { totals.new ≡ total_bytes winter book.now list.now references.now out.old
        totals.old }
{
    refusals::packed(power_told(winter, book, list, references, out, totals))
}
