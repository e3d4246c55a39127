// What is printed: a statement, or the line of a refused text.
ghost use Rattle.std.specs.Prelude.{◌≡◌, [], ◌∷◌, ◌+◌, ◌*◌, ◌≤◌, length};
ghost use Rattle.credit.specs.Lines.{line_numbers};
ghost use Rattle.notices.specs.Notices.{count_of};
ghost use Rattle.numerals.specs.Lines.{line, bytes_of_lines};
ghost use Rattle.numerals.specs.Put.{Put};
ghost use Rattle.printing.specs.Room.{cannot_print, printed, printed_count};
ghost use Rattle.printing.specs.Sheet.{refused_bytes, statement_bytes};

use crate::lines::put_lines;
use credit::Totals;
use numerals::put_line;

// Whether some notices cannot be printed. Divided on both sides, so that no length is too large.
#[tactic(auto, unfolding(crate::specs::Room::cannot_print))]
fn cannot_print(notices: usize, numbers: usize, room: usize) -> bool
    ensures { result ≡ cannot_print notices numbers room }
{
    numbers / credit::LINE_NUMBERS < notices || room / 152 <= notices
}

// Puts the line of a refused text at the front of the output.
fn put_refusal(out: &mut [u8], number: u64, place: u64) -> usize
    requires { 50 ≤ length out.old }
    ensures put { Put out.old 0 (refused_bytes number place) result out.new }
    ensures upper_bound { result ≤ 50 }
{
    put_line(out, 0, b"refused=", &[number, place])
}

// Puts winter, price and number of notices at the front of the output.
fn put_head(out: &mut [u8], winter: u64, price: u64, notices: u64) -> usize
    requires { 83 ≤ length out.old }
    ensures put { Put out.old 0
        (bytes_of_lines (line "winter=" (winter ∷ []) ∷ line "price=" (price ∷ []) ∷ line "events=" (notices ∷ []) ∷ [])) result out.new }
    ensures upper_bound { result ≤ 83 }
{
    let second = put_line(out, 0, b"winter=", &[winter]);
    let third = put_line(out, second, b"price=", &[price]);
    put_line(out, third, b"events=", &[notices])
}

// Puts total energy and total cents.
fn put_totals(out: &mut [u8], at: usize, totals: Totals) -> usize
    requires { at + 55 ≤ length out.old }
    ensures put { Put out.old at (bytes_of_lines (line "energy=" (totals.energy ∷ []) ∷ line "total=" (totals.cents ∷ []) ∷ [])) result out.new }
    ensures upper_bound { result ≤ at + 55 }
{
    let last = put_line(out, at, b"energy=", &[totals.energy]);
    put_line(out, last, b"total=", &[totals.cents])
}

// Puts a statement that has room.
fn put_statement(
    winter: u32,
    price: u32,
    list: &[u32],
    lines: &[u64],
    totals: Totals,
    out: &mut [u8],
) -> usize
    requires { (line_numbers * count_of list.now ≤ length lines.now) × (152 * count_of list.now + 152 ≤ length out.old) }
    ensures put { Put out.old 0 (statement_bytes winter price list.now lines.now totals.energy totals.cents) result out.new }
    ensures upper_bound { result ≤ length out.old }
{
    let count = notices::count_in(list.len());
    let first = put_head(out, u64::from(winter), u64::from(price), count as u64);
    let past = put_lines(out, first, list, lines, count);
    put_totals(out, past, totals)
}

// Prints the line of a refused text at the front of the output, and answers how many bytes it has; 0, and nothing is written, where the output
// has fewer than 152 bytes.
// A number and a place, not a refusal: any numbers are printed, as the contract says, also such as no rule has.
#[tactic(auto, using(crate::proofs::RoomLaws::room_laws))]
pub fn print_refusal(number: u32, place: u64, out: &mut [u8]) -> usize
    ensures value { result ≡ printed_count (cannot_print 0 0 (length out.old)) (refused_bytes number place) }
    ensures out_after { out.new ≡ printed (cannot_print 0 0 (length out.old)) (refused_bytes number place) out.old }
{
    if cannot_print(0, 0, out.len()) {
        return 0;
    }
    put_refusal(out, u64::from(number), place)
}

// Prints the statement of a settlement at the front of the output, and answers how many bytes it has; 0, and nothing is written, where the
// settlement has fewer than four numbers a notice or the output fewer than 152 bytes a notice and 152 more.
#[tactic(auto, using(crate::proofs::RoomLaws::room_laws))]
pub fn print_statement(
    winter: u32,
    price: u32,
    list: &[u32],
    lines: &[u64],
    totals: Totals,
    out: &mut [u8],
) -> usize
    ensures value { result ≡ printed_count (cannot_print (count_of list.now) (length lines.now) (length out.old))
        (statement_bytes winter price list.now lines.now totals.energy totals.cents) }
    ensures out_after { out.new ≡ printed (cannot_print (count_of list.now) (length lines.now) (length out.old))
        (statement_bytes winter price list.now lines.now totals.energy totals.cents) out.old }
{
    if cannot_print(notices::count_in(list.len()), lines.len(), out.len()) {
        return 0;
    }
    put_statement(winter, price, list, lines, totals, out)
}
