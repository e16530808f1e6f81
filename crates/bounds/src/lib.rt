// Numbers that keep inside their bounds.
#![tactic(auto)]

ghost use Rattle.std.specs.Prelude.{◌≡◌, min};
ghost use Rattle.bounds.specs.Up as Up;

// The lesser of two.
pub fn lesser(a: usize, b: usize) -> usize
    ensures { result ≡ min a b }
{
    a.min(b)
}

// One more; the greatest number of 64 bits stays, so that no sum wraps.
#[tactic(auto, unfolding(crate::specs::Up::up))]
pub fn up(x: u64) -> u64
    ensures { result ≡ Up.up x }
{
    x.saturating_add(1)
}
