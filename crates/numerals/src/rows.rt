// The numbers of a line, put into a lent slice as they are read.
ghost use Rattle.std.specs.Prelude.{◌≡◌, length, set};
ghost use Rattle.std.proofs.lemmas.List.Edits.{sets};
ghost use Rattle.numerals.specs.Rows.{next_index, row_at, row_told};

use crate::fields::{Field, field_at};

// How many numbers a line has, and the position after it.
#[derive(Clone, Copy)]
pub struct Row {
    pub count: u32,
    pub next: usize,
}

// Stores a value at an index, and answers the next index. Past the end of the slice nothing is stored, and the index stays.
fn put(out: &mut [u32], k: usize, value: u32) -> usize
    ensures value { result ≡ next_index (length out.old) k }
    ensures out_after { out.new ≡ set out.old k value }
{
    if k < out.len() {
        out[k] = value;
        return k + 1;
    }
    k
}

// Reads at least one and at most `most` numbers with commas between them, of which the last ends the line, and puts them into a slice from an
// index on; those past its end are left out. Where the line breaks, the numbers before the break are put.
#[tactic(auto, using(crate::proofs::RowLaws::broken_laws))]
pub fn row_at(text: &[u8], at: usize, most: u32, out: &mut [u32], first: usize) -> Option<Row>
    ensures value { result ≡ row_told 0 (row_at most text.now at) }
    ensures out_after { out.new ≡ sets out.old first (row_at most text.now at).said }
{
    let mut i = at;
    // The index goes on by itself beside the count: past the end of the slice it stays.
    let mut k = first;
    for count in 0..most {
        let Field { value, end, next } = field_at(text, i)?;
        k = put(out, k, value);
        if end == b'\n' {
            let count = count + 1;
            return Some(Row { count, next });
        }
        if end != b',' {
            return None;
        }
        i = next;
    }
    None
}
