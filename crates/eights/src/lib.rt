// Eight bytes as one number, so that they are compared at once: the first byte is the lowest, which is the order in
// which the machine has them.
#![tactic(auto)]

ghost use Rattle.std.specs.Prelude.{◌≡◌};
ghost use Rattle.octets.specs.Run.{part};
ghost use Rattle.eights.specs.Low.{low};

use numbers::number;

// The number of the eight bytes from a place on, the first the lowest; bytes past the end are 0. So eight bytes are
// compared at once.
pub fn low8(s: &[u8], at: usize) -> u64
    ensures { result ≡ low (part s.now at 8) }
{
    number::<u64>(s, at).swap_bytes()
}
