// Numbers and words at a position of a text.
ghost use Rattle.std.specs.Prelude.{◌≡◌, ◌≤◌, drop};
ghost use Rattle.numerals.specs.Fields.{largest, digits_from, field_at, word_at, keyed_at};

// A number, the byte that ends it, and the position after that byte.
#[derive(Clone, Copy)]
pub struct Field {
    pub value: u32,
    pub end: u8,
    pub next: usize,
}

// A number and the position after its line.
#[derive(Clone, Copy)]
pub struct Number {
    pub value: u32,
    pub next: usize,
}

// The field that goes on with the digits from a position on, after digits worth `first`.
#[tactic(auto, using(crate::proofs::FieldLaws::digits_laws))]
fn digits_from(text: &[u8], from: usize, first: u64) -> Option<Field>
    requires { first ≤ largest }
    ensures { result ≡ digits_from (drop from text.now) from first }
{
    let mut value = first;
    for i in from..text.len() {
        let end = text[i];
        if !end.is_ascii_digit() {
            let value = value as u32;
            let next = i + 1;
            return Some(Field { value, end, next });
        }
        value = value * 10 + u64::from(end - b'0');
        if 4_294_967_294 < value {
            return None;
        }
    }
    None
}

// The number at a position and the byte that ends it, whatever that is. The digit 0 ends a number that it starts, so that of a number with a
// leading zero the byte is a digit, where a comma or a line's end has to stand.
#[tactic(auto, using(crate::proofs::FieldLaws::field_laws))]
pub fn field_at(text: &[u8], at: usize) -> Option<Field>
    ensures { result ≡ field_at text.now at }
{
    let first = text.get(at).copied()?;
    if !first.is_ascii_digit() {
        return None;
    }
    let next = at + 1;
    if first != b'0' {
        return digits_from(text, next, u64::from(first - b'0'));
    }
    let end = text.get(next).copied()?;
    let next = next + 1;
    Some(Field {
        value: 0,
        end,
        next,
    })
}

// The bytes from a position on, of which there are none past the end.
fn rest_at(text: &[u8], at: usize) -> &[u8]
    ensures { result.now ≡ drop at text.now }
{
    text.get(at..).unwrap_or(&[])
}

// Past the word, where it stands at a position.
#[tactic(auto, using(crate::proofs::FieldLaws::word_found))]
pub fn word_at(text: &[u8], at: usize, word: &[u8]) -> Option<usize>
    ensures { result ≡ word_at text.now at word.now }
{
    if !rest_at(text, at).starts_with(word) {
        return None;
    }
    Some(at + word.len())
}

// The number of a line that has a key and one number.
#[tactic(auto, unfolding(crate::specs::Fields::keyed_at))]
pub fn keyed_at(text: &[u8], at: usize, key: &[u8]) -> Option<Number>
    ensures { result ≡ keyed_at text.now at key.now }
{
    let p = word_at(text, at, key)?;
    let Field { value, end, next } = field_at(text, p)?;
    if end != b'\n' {
        return None;
    }
    Some(Number { value, next })
}
