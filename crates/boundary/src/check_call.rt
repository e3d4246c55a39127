// The list check on bytes.
ghost use Rattle.std.specs.Prelude.{◌≡◌};
ghost use Rattle.boundary.specs.Calls.{check_call};

// Whether a list of notices, lent as bytes, stands under a profile in a winter: 0, or number and place in one (rule 9.5).
pub fn check_bytes(winter: u32, profile: u32, list: &[u8]) -> u32
    ensures { result ≡ check_call winter profile list.now }
{
    refusals::packed(schedule::check_lent(winter, profile, list))
}
