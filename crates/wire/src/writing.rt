// Numbers to bytes.
ghost use Rattle.std.specs.Prelude.{◌≡◌, ◌+◌, ◌≤◌, length};
ghost use Rattle.std.proofs.lemmas.List.Edits.{sets};
ghost use Rattle.wire.specs.Bytes.{eight_bytes, bytes_written};

// Stores the eight bytes of a number from index i on, the lowest first.
fn put_number(bytes: &mut [u8], i: usize, v: u64)
    requires { i + 8 ≤ length bytes.old }
    ensures { bytes.new ≡ sets bytes.old i (eight_bytes v) }
{
    bytes[i..i + 8].copy_from_slice(&v.to_le_bytes());
}

// Writes as many numbers, little-endian, as have room for all their eight bytes, and leaves bytes over as they are.
pub fn write_numbers(numbers: &[u64], bytes: &mut [u8])
    ensures { bytes.new ≡ bytes_written numbers.now bytes.old }
{
    let count = numbers.len().min(bytes.len() / 8);
    // By an index, as numbers are read.
    for i in 0..count {
        put_number(bytes, 8 * i, numbers[i]);
    }
}
