// The answer to a text.
ghost use Rattle.std.specs.Prelude.{◌≡◌, ◌≤◌, length, take};
ghost use Rattle.book.specs.Length.{book_length};
ghost use Rattle.dates.specs.Winters.{days};
ghost use Rattle.printing.specs.Sheet.{refused_bytes};
ghost use Rattle.refusals.specs.Refusals.{rule_number};
ghost use Rattle.text.specs.Prints.{Prints, PrintsHeld, Arrays, InBook, NoticesLeft, values_bytes, shape_bytes};
ghost use Rattle.text.specs.Statement.{answer_room, answered, answered_in};

use form::Shape;
use refusals::Rule;

// Prints the line of a text that a rule refuses. A place and not a refusal: a line of a text may lie past the places of refusals. That the output has
// room stays a `requires` of private functions: as an array of so many bytes it would leave the rest of the output behind, of which `answered_in` speaks.
fn refuse(rule: Rule, place: u64, out: &mut [u8]) -> usize
    requires { answer_room ≤ length out.old }
    ensures { Prints (refused_bytes (rule_number rule) place) out.old result out.new }
{
    printing::print_refusal(u32::from(rule), place, out)
}

// Settles a list into lines, for which there is just the room, and prints the settlement, or the refusal of its notices.
fn print_settled(
    winter: u32,
    book: &[u32],
    price: u32,
    list: &[u32],
    lines: &mut [u64],
    out: &mut [u8],
) -> usize
    requires { NoticesLeft winter book.now price list.now lines.old out.old }
    ensures { Prints (values_bytes winter price list.now None book.now) out.old result out.new }
{
    match credit::settle(winter, book, price, list, lines) {
        Err(refusal) => refuse(refusal.rule, u64::from(refusal.place), out),
        Ok(totals) => printing::print_statement(winter, price, list, lines, totals, out),
    }
}

// Prints the answer to a text whose lines all lie in the book of its winter: 3, 4, and the settlement of the notices, of which the list has
// room for 100.
fn print_notices(shape: Shape, list: &[u32], book: &[u32], out: &mut [u8]) -> usize
    requires { InBook shape list.now book.now out.old }
    ensures { PrintsHeld shape.events list.now (shape_bytes shape book.now) out.old result out.new }
{
    let events = shape.events as usize;
    if money::bad_price(shape.price) {
        return refuse(Rule::BadPrice, 0, out);
    }
    if notices::MOST_NOTICES < events {
        return refuse(Rule::BadList, 0, out);
    }
    let mut lines = [0u64; credit::MOST_LINE_NUMBERS];
    print_settled(
        shape.winter,
        book,
        shape.price,
        &list[..notices::NOTICE_NUMBERS * events],
        &mut lines[..credit::LINE_NUMBERS * events],
        out,
    )
}

// Prints the answer to a text that has the form, from the front of its notices and the book of 152 days that it filled.
fn print_formed(shape: Shape, list: &[u32], book: &[u32], out: &mut [u8]) -> usize
    requires { Arrays list.now book.now out.old }
    ensures { PrintsHeld shape.events list.now (shape_bytes shape (take (book_length (days shape.winter)) book.now))
        out.old result out.new }
{
    let Some(days) = dates::winter_days(shape.winter) else {
        return refuse(Rule::NoWinter, 0, out);
    };
    if let Some(line) = shape.misplaced {
        return refuse(Rule::MisplacedLine, line as u64, out);
    }
    let hours = book::length_of(days);
    print_notices(shape, list, &book[..hours], out)
}

// Writes the statement of a text, or its refusal, at the front of the output, and answers how many bytes it wrote; 0, and it writes nothing,
// where the output has fewer than 20,480 bytes, in which every answer has room.
pub fn statement(text: &[u8], out: &mut [u8]) -> usize
    ensures value { result ≡ answered text.now out.old }
    ensures out_after { out.new ≡ answered_in text.now out.old }
{
    if out.len() < 20_480 {
        return 0;
    }
    if 65_536 < text.len() {
        return refuse(Rule::LongText, 0, out);
    }
    let mut list = [0u32; notices::LONGEST_LIST];
    let mut book = [book::MISSING_MARK; book::MOST_READINGS];
    match form::read_text(text, &mut list, &mut book) {
        Err(broken) => refuse(Rule::BrokenForm, broken.line as u64, out),
        Ok(shape) => print_formed(shape, &list, &book, out),
    }
}
