// The settlement on bytes. The numbers are held in arrays of its own: the book's, the list's and the lines'.
ghost use Rattle.std.specs.Prelude.{◌≡◌, length};
ghost use Rattle.refusals.specs.Packed.{packed};
ghost use Rattle.boundary.specs.Calls.{settle_call, settle_bytes};
ghost use Rattle.boundary.specs.Whole.{Lengths, numbers_in_whole, SettledBytes};

use refusals::Refusal;

// The parameters stay apart as C lends them to `ibisladder_settle`.
// Settles what bytes of the right lengths stand for, with room of its own for the numbers, and writes the bytes of the lines.
fn settle_whole(
    winter: u32,
    book: &[u8],
    price: u32,
    list: &[u8],
    out: &mut [u8],
) -> Result<(), Refusal>
    requires { Lengths (length book.now) (length list.now) (length out.old) }
    ensures { SettledBytes winter (numbers_in_whole book.now) price (numbers_in_whole list.now) out.old (packed result) out.new }
{
    let mut readings = [0; book::MOST_READINGS];
    let mut numbers = [0; notices::LONGEST_LIST];
    let mut room = [0; credit::MOST_LINE_NUMBERS];
    let book = wire::read_front(book, &mut readings);
    let list = wire::read_front(list, &mut numbers);
    let lines = &mut room[..credit::LINE_NUMBERS * notices::count_in(list.len())];
    credit::settle(winter, book, price, list, lines)?;
    wire::write_numbers(lines, out);
    Ok(())
}

// The same from bytes of any lengths.
fn settle_told(
    winter: u32,
    book: &[u8],
    price: u32,
    list: &[u8],
    out: &mut [u8],
) -> Result<(), Refusal>
    ensures value { packed result ≡ settle_call winter book.now price list.now (length out.old) }
    ensures out_after { out.new ≡ settle_bytes winter book.now price list.now out.old }
{
    let readings = wire::numbers_in(book.len());
    let numbers = wire::numbers_in(list.len());
    credit::call_refusal(winter, readings, price, numbers, out.len() / 8)?;
    settle_whole(winter, book, price, list, out)
}

// Settles a winter whose book and list are lent as bytes, into the bytes of an output: 0, or number and place in one (rule 9.5).
pub fn settle_bytes(winter: u32, book: &[u8], price: u32, list: &[u8], out: &mut [u8]) -> u32
    ensures value { result ≡ settle_call winter book.now price list.now (length out.old) }
    ensures out_after { out.new ≡ settle_bytes winter book.now price list.now out.old }
{
    refusals::packed(settle_told(winter, book, price, list, out))
}
