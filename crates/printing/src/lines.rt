// The `line=` lines of a statement.
ghost use Rattle.std.specs.Prelude.{◌≡◌, ◌+◌, ◌*◌, ◌≤◌, length};
ghost use Rattle.numerals.specs.Lines.{line_bytes, bytes_of_lines};
ghost use Rattle.credit.specs.Lines.{line_numbers};
ghost use Rattle.numerals.specs.Put.{Put};
ghost use Rattle.printing.specs.Room.{line_room};
ghost use Rattle.printing.specs.Sheet.{numbers_at, notice_line, notice_lines};

// The numbers of the line of the notice at index k: its own, and those that the settlement's lines hold of it. List and lines stay two parameters, read
// at an index, down from `print_statement`, to which they are lent so: a line has four numbers where a notice has three.
fn numbers_at(list: &[u32], lines: &[u64], k: usize) -> [u64; 7]
    requires { line_numbers * k + line_numbers ≤ length lines.now }
    ensures { result ≡ numbers_at list.now lines.now k }
{
    let notice = notices::notice_at(list, k);
    let at = credit::LINE_NUMBERS * k;
    [
        u64::from(notice.day),
        u64::from(notice.start),
        u64::from(notice.end),
        lines[at],
        lines[at + 1],
        lines[at + 2],
        lines[at + 3],
    ]
}

// Puts the line of the notice at index k.
fn put_notice(out: &mut [u8], at: usize, list: &[u32], lines: &[u64], k: usize) -> usize
    requires { (line_numbers * k + line_numbers ≤ length lines.now) × (at + line_room ≤ length out.old) }
    ensures put { Put out.old at (line_bytes (notice_line list.now lines.now k)) result out.new }
    ensures upper_bound { result ≤ at + line_room }
{
    let numbers = numbers_at(list, lines, k);
    numerals::put_line(out, at, b"line=", &numbers)
}

// Puts the lines of the first n notices.
pub(crate) fn put_lines(out: &mut [u8], at: usize, list: &[u32], lines: &[u64], n: usize) -> usize
    requires { (line_numbers * n ≤ length lines.now) × (at + line_room * n ≤ length out.old) }
    ensures put { Put out.old at (bytes_of_lines (notice_lines list.now lines.now n)) result out.new }
    ensures upper_bound { result ≤ at + line_room * n }
{
    let mut next = at;
    for k in 0..n {
        next = put_notice(out, next, list, lines, k);
    }
    next
}
