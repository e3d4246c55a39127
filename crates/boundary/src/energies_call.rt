// The energies on bytes. The numbers are held in arrays of its own: the book's, the list's and the lines'.
ghost use Rattle.std.specs.Prelude.{◌≡◌, length};
ghost use Rattle.refusals.specs.Packed.{packed};
ghost use Rattle.boundary.specs.EnergiesCall.{energies_call, energies_bytes};
ghost use Rattle.boundary.specs.EnergiesWhole.{EnergiesLengths, SparedBytes};
ghost use Rattle.boundary.specs.Whole.{numbers_in_whole};

use refusals::Refusal;

// Works out the lines of what bytes of the right lengths stand for, with room of its own for the numbers, and writes their bytes.
// The parameters stay apart as bytes are lent. By itself beside `settle_whole`, as is `cents_whole`: arrays, numbers a line and call are its own, and no
// more than these is left in it.
fn energies_whole(winter: u32, book: &[u8], list: &[u8], out: &mut [u8]) -> Result<(), Refusal>
    requires { EnergiesLengths (length book.now) (length list.now) (length out.old) }
    ensures { SparedBytes winter (numbers_in_whole book.now) (numbers_in_whole list.now) out.old (packed result) out.new }
{
    let mut readings = [0; book::MOST_READINGS];
    let mut numbers = [0; notices::LONGEST_LIST];
    let mut room = [0; settlement::MOST_LINE_NUMBERS];
    let book = wire::read_front(book, &mut readings);
    let list = wire::read_front(list, &mut numbers);
    let lines = &mut room[..settlement::LINE_NUMBERS * notices::count_in(list.len())];
    settlement::energies(winter, book, list, lines)?;
    wire::write_numbers(lines, out);
    Ok(())
}

// The same from bytes of any lengths.
fn energies_told(winter: u32, book: &[u8], list: &[u8], out: &mut [u8]) -> Result<(), Refusal>
    ensures value { packed result ≡ energies_call winter book.now list.now (length out.old) }
    ensures out_after { out.new ≡ energies_bytes winter book.now list.now out.old }
{
    let readings = wire::numbers_in(book.len());
    let numbers = wire::numbers_in(list.len());
    settlement::call_refusal(winter, readings, numbers, out.len() / 8)?;
    energies_whole(winter, book, list, out)
}

// The energies of a winter whose book and list are lent as bytes, into the bytes of an output: 0, or number and place in one (rule 9.5).
pub fn energies_bytes(winter: u32, book: &[u8], list: &[u8], out: &mut [u8]) -> u32
    ensures value { result ≡ energies_call winter book.now list.now (length out.old) }
    ensures out_after { out.new ≡ energies_bytes winter book.now list.now out.old }
{
    refusals::packed(energies_told(winter, book, list, out))
}
