// The form of a whole text.
ghost use Rattle.std.specs.Prelude.{◌≡◌};
ghost use Rattle.std.proofs.lemmas.List.Edits.{sets};
ghost use Rattle.form.specs.Form.{top_of, rest_of, form_of, notices_said, reads_said, reads_from};
ghost use Rattle.form.specs.Places.{book_in};

use crate::lines::{BrokenLine, event_lines, read_lines};
use crate::places::book_days;
use numerals::keyed_at;

// What a text that has the form says beside its notices and readings: the winter, the price, how many notices it has, and the first read line
// that is misplaced (31) for the days of that winter, as a line of the text.
#[derive(Clone, Copy)]
pub struct Shape {
    pub winter: u32,
    pub price: u32,
    pub events: u32,
    pub misplaced: Option<usize>,
}

// The winter, the price and the number of event lines of a text, and the position after its first three lines.
#[derive(Clone, Copy)]
pub struct Top {
    pub winter: u32,
    pub price: u32,
    pub events: u32,
    pub next: usize,
}

// The first three lines of a text.
#[tactic(auto, unfolding(crate::specs::Form::top_of))]
fn top_of(text: &[u8]) -> Result<Top, BrokenLine>
    ensures { result ≡ top_of text.now }
{
    let winter = keyed_at(text, 0, b"winter=").ok_or(BrokenLine { line: 1 })?;
    let price = keyed_at(text, winter.next, b"price=").ok_or(BrokenLine { line: 2 })?;
    let events = keyed_at(text, price.next, b"events=").ok_or(BrokenLine { line: 3 })?;
    Ok(Top {
        winter: winter.value,
        price: price.value,
        events: events.value,
        next: events.next,
    })
}

// The form of a text from the line `reads=` on, which stands at a position behind the event lines; the readings are put into the book.
#[tactic(auto, unfolding(crate::specs::Form::rest_of, crate::specs::Form::reads_from, crate::specs::Places::book_in, crate::specs::Places::placed_lines))]
fn rest_of(text: &[u8], top: Top, at: usize, book: &mut [u32]) -> Result<Shape, BrokenLine>
    ensures value { result ≡ rest_of text.now top.winter top.price top.events at }
    ensures book_after { book.new ≡ book_in (reads_from text.now at) book.old }
{
    let line = top.events as usize + 4;
    let reads = keyed_at(text, at, b"reads=").ok_or(BrokenLine { line })?;
    let placed = read_lines(
        text,
        reads.next,
        reads.value,
        line + 1,
        book_days(top.winter),
        book,
    )?;
    if placed.next != text.len() {
        let line = line + 1 + reads.value as usize;
        return Err(BrokenLine { line });
    }
    Ok(Shape {
        winter: top.winter,
        price: top.price,
        events: top.events,
        misplaced: placed.misplaced,
    })
}

// Whether a text has the form. On the way the numbers of its notices are put at the front of the list and its readings at their hours in the
// book, up to what breaks the form if anything does; what has no room there is left out, and what the text does not list stays as it was.
#[tactic(auto, unfolding(crate::specs::Form::form_of, crate::specs::Form::notices_said, crate::specs::Form::reads_said, crate::specs::Places::book_in))]
pub fn read_text(text: &[u8], list: &mut [u32], book: &mut [u32]) -> Result<Shape, BrokenLine>
    ensures value { result ≡ form_of text.now }
    ensures list_after { list.new ≡ sets list.old 0 (notices_said text.now) }
    ensures book_after { book.new ≡ book_in (reads_said text.now) book.old }
{
    let top = top_of(text)?;
    let next = event_lines(text, top.next, top.events, list)?;
    rest_of(text, top, next, book)
}
