// Single bytes of lent bytes: read and stored, and how many there are. Every function here is total: a byte past the
// end is read as 0, and a byte stored past the end goes nowhere, so no caller has a length to show.
#![tactic(auto)]

ghost use Rattle.std.specs.Prelude.{◌≡◌, ◌+◌, ◌-◌, get_or, set};

// How many bytes stand from a place on. Whoever wants n bytes there asks this once and then needs no test for each.
pub fn left(size: usize, at: usize) -> usize
    ensures { result ≡ size - at }
{
    size.saturating_sub(at)
}

// The byte at a place.
pub fn byte(s: &[u8], at: usize) -> u8
    ensures { result ≡ get_or s.now at 0 }
{
    s.get(at).copied().unwrap_or(0)
}

// The byte j places past a place; the sum of the two may not fit a usize. It is apart, for bytes past the end are rare,
// and so that a loop over them does not become a call of C's memset where all of them lie past it.
#[inline(never)]
pub fn byte_past(s: &[u8], at: usize, j: usize) -> u8
    ensures { result ≡ get_or s.now (at + j) 0 }
{
    if at < s.len() && j < s.len() - at {
        s[at + j]
    } else {
        0
    }
}

// Stores a byte at a place.
pub fn put_byte(out: &mut [u8], at: usize, b: u8)
    ensures { out.new ≡ set out.old at b }
{
    if at < out.len() {
        out[at] = b;
    }
}

// Stores a byte j places past a place.
pub fn put_past(out: &mut [u8], at: usize, j: usize, b: u8)
    ensures { out.new ≡ set out.old (at + j) b }
{
    if at < out.len() && j < out.len() - at {
        out[at + j] = b;
    }
}
