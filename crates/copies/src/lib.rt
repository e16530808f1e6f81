// Bytes copied from one place to another. What would lie past the end of the one run is left out; bytes past the end of
// the other are 0.
#![tactic(auto)]

ghost use Rattle.std.specs.Prelude.{◌≡◌, get_or, set};
ghost use Rattle.std.proofs.lemmas.List.Edits.{sets};
ghost use Rattle.octets.specs.Run.{part};

use octets::run::fill;
use single::{byte, byte_past, put_byte, put_past};

// Copies one byte.
pub fn copy_byte(out: &mut [u8], to: usize, s: &[u8], from: usize)
    ensures { out.new ≡ set out.old to (get_or s.now from 0) }
{
    put_byte(out, to, byte(s, from));
}

// Copies four bytes, as those of a number.
pub fn copy_four(out: &mut [u8], to: usize, s: &[u8], from: usize)
    ensures { out.new ≡ sets out.old to (part s.now from 4) }
{
    copy_run(out, to, s, from, 4);
}

// Copies those of n bytes that stand inside of what they are stored to, one by one, as `octets::run` does past an end.
// Apart from `copy_run`, so that the way of a run that stands inside is short enough to be copied into each caller.
#[inline(never)]
fn copy_past(out: &mut [u8], to: usize, s: &[u8], from: usize, n: usize)
    ensures { out.new ≡ sets out.old to (part s.now from n) }
{
    let start = to.min(out.len());
    let count = n.min(out.len() - start);
    for i in 0..count {
        put_past(out, to, i, byte_past(s, from, i));
    }
}

// Copies n bytes, as fields that stand side by side here and there.
pub fn copy_run(out: &mut [u8], to: usize, s: &[u8], from: usize, n: usize)
    ensures { out.new ≡ sets out.old to (part s.now from n) }
{
    let start = to.min(out.len());
    if n <= out.len() - start {
        fill(&mut out[start..start + n], s, from);
    } else {
        copy_past(out, to, s, from, n);
    }
}
