// Prints the statement of the text on standard input, and nothing else.
#![tactic(auto)]

ghost use Rattle.std.specs.Prelude.{◌≤◌, ◌<◌, length, take, IfOk, IfSome, IsTrue};
ghost use Rattle.std.specs.Io.{ReadsAtMost};
ghost use Rattle.std.specs.Io.KnownBytes.{Appends, Consumes, IsAtEnd, ReadConsumes};
ghost use Rattle.text.specs.Statement.{statement_of};

use std::io;
use std::io::{ErrorKind, Read, Write};

// One read, and another one where a signal came before its first byte.
fn read_some<R: Read>(reader: &mut R, buf: &mut [u8]) -> io::Result<usize>
    ensures bound { ReadsAtMost result buf.new }
    ensures bytes { ReadConsumes (R.remaining reader.old) (R.remaining reader.new) result buf.new }
{
    for _ in 0..u64::MAX {
        match reader.read(buf) {
            Err(e) if e.kind() == ErrorKind::Interrupted => {}
            result => return result,
        }
    }
    reader.read(buf)
}

// What was read: how many bytes stand at the front of the buffer, and whether no read failed. Not a Result: what was read counts also where a
// read failed (rule 8.18), so that both have a count.
#[derive(Clone, Copy)]
struct Front {
    count: usize,
    whole: bool,
}

// Reads to the front of a buffer, until the reader ends, a read fails or the buffer is full.
fn read_front<R: Read>(reader: &mut R, buf: &mut [u8]) -> Front
    ensures bound { result.count ≤ length buf.new }
    ensures bytes { Consumes (R.remaining reader.old) (R.remaining reader.new) (take result.count buf.new) }
    ensures end { IsTrue result.whole → result.count < length buf.new → IsAtEnd (R.remaining reader.new) }
{
    let mut filled = 0;
    // A `while`: each read says how far it goes, and what reads to the end wants a heap.
    while filled < buf.len() {
        match read_some(reader, &mut buf[filled..]) {
            Ok(0) => break,
            Ok(count) => filled += count,
            Err(_) => {
                return Front {
                    count: filled,
                    whole: false,
                };
            }
        }
    }
    Front {
        count: filled,
        whole: true,
    }
}

// Writes the statement of the text that a reader has, of all of it unless a read fails, and nothing else; answers whether no read failed.
fn answer<R: Read, W: Write>(reader: &mut R, writer: &mut W) -> io::Result<bool>
    ensures { IfOk result (λ whole. IsTrue whole
        → IfSome (R.remaining reader.old) (λ text. Appends (W.contents writer.old) (W.contents writer.new) (statement_of text))) }
{
    // One byte more than a text may have, so that a longer one is seen as too long.
    let mut input = [0u8; 65537];
    let read = read_front(reader, &mut input);
    let mut out = [0u8; 20480];
    let written = text::statement(&input[..read.count], &mut out);
    writer.write_all(&out[..written])?;
    Ok(read.whole)
}

// A read that fails counts as the end of the text (rule 8.18), and of a write that fails there is nowhere to say it.
fn main(rt: HostRuntime) {
    let _ = answer(&mut rt.stdin(), &mut rt.stdout());
}
