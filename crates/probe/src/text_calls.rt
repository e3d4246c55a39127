// The call on a text.
ghost use Rattle.std.specs.Prelude.{◌≡◌};
ghost use Rattle.text.specs.Statement.{answered, answered_in};

// The statement of a text, in an output of any length.
#[unsafe(no_mangle)]
pub extern "C" fn probe_statement(text: &[u8], out: &mut [u8]) -> usize
    ensures value { result ≡ answered text.now out.old }
    ensures out_after { out.new ≡ answered_in text.now out.old }
{
    text::statement(text, out)
}
