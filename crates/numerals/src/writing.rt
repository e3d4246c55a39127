// Lines of a key and numbers, put into a lent output from an index on; each function answers the index after what it put.
ghost use Rattle.std.specs.Prelude.{[], ◌∷◌, ◌++◌, map, ◌≡◌, ◌+◌, ◌*◌, ◌≤◌, length};
ghost use Rattle.numerals.specs.Decimal.{decimal};
ghost use Rattle.numerals.specs.Lines.{field_bytes};
ghost use Rattle.numerals.specs.Put.{Put, end_before, field_room, no_room, line_put};

// Puts the digits of a number: those of its tenth first, which are all but the last.
// By hand, not by the library's itoa: its text would be copied here from 40 bytes of its own, and shown to be `decimal`, which this follows step by step.
#[tactic(auto, using(crate::proofs::PutLaws::number_laws))]
fn put_number(out: &mut [u8], at: usize, n: u64) -> usize
    requires { at + length (decimal n) ≤ length out.old }
    ensures { Put out.old at (decimal n) result out.new }
{
    let last = b'0' + (n % 10) as u8;
    if n < 10 {
        out[at] = last;
        return at + 1;
    }
    let next = put_number(out, at, n / 10);
    out[next] = last;
    next + 1
}

// Puts a key as it is.
#[tactic(auto, using(crate::proofs::PutLaws::put_copy))]
fn put_key(out: &mut [u8], at: usize, key: &[u8]) -> usize
    requires { at + length key.now ≤ length out.old }
    ensures { Put out.old at key.now result out.new }
{
    let next = at + key.len();
    out[at..next].copy_from_slice(key);
    next
}

// Puts a number and the byte that ends it, together at most 21 bytes.
#[tactic(auto, using(crate::proofs::DecimalLaws::decimal_short, crate::proofs::PutLaws::put_length))]
fn put_field(out: &mut [u8], at: usize, n: u64, end: u8) -> usize
    requires { at + field_room ≤ length out.old }
    ensures put { Put out.old at (decimal n ++ (end ∷ [])) result out.new }
    ensures upper_bound { result ≤ at + field_room }
{
    let next = put_number(out, at, n);
    out[next] = end;
    next + 1
}

// The byte that ends a number of a line: a comma if others follow it, else the byte that ends the line.
fn end_of(more: bool) -> u8
    ensures { result ≡ end_before more }
{
    if more { b',' } else { b'\n' }
}

// Puts the numbers of a line.
#[tactic(auto, using(crate::proofs::FieldWalk::fields_end))]
fn put_fields(out: &mut [u8], at: usize, numbers: &[u64]) -> usize
    requires { at + field_room * length numbers.now ≤ length out.old }
    ensures put { Put out.old at (field_bytes (map decimal numbers.now)) result out.new }
    ensures upper_bound { result ≤ at + field_room * length numbers.now }
{
    let mut i = at;
    for (k, &n) in numbers.iter().enumerate() {
        i = put_field(out, i, n, end_of(k + 1 < numbers.len()));
    }
    i
}

// Whether there is no room for a key and so many numbers. Taken away and divided, so that no sum is too large.
#[tactic(auto, unfolding(crate::specs::Put::no_room))]
fn no_room(room: usize, at: usize, key: usize, count: usize) -> bool
    ensures { result ≡ no_room room at key count }
{
    match room.checked_sub(at).and_then(|left| left.checked_sub(key)) {
        Some(left) => left / 21 < count,
        None => true,
    }
}

// Puts a line of a key and numbers, where the output has room for 21 bytes a number behind the key; else it puts nothing, and answers the
// index as it was.
#[tactic(auto, using(crate::proofs::FieldWalk::room_laws))]
pub fn put_line(out: &mut [u8], at: usize, key: &[u8], numbers: &[u64]) -> usize
    ensures put { Put out.old at (line_put (length out.old) at key.now numbers.now) result out.new }
    ensures upper_bound { result ≤ at + length key.now + field_room * length numbers.now }
{
    if no_room(out.len(), at, key.len(), numbers.len()) {
        return at;
    }
    let first = put_key(out, at, key);
    put_fields(out, first, numbers)
}
