// Whether a book is sound: each of the four calls of the book that is lent one asks this first.
#![tactic(auto)]

ghost use Rattle.std.specs.Prelude.{◌≡◌};
ghost use Rattle.sound.specs.Sound.{sound};

use counters::{Counters, LAST_NUMBER};
use phases::LAST_PHASE;

// Whether the counters are sound for rooms of that many bytes.
pub fn is_sound(c: Counters, rows: usize, lines: usize) -> bool
    ensures { result ≡ sound c rows lines }
{
    if c.wanted < 1 {
        return false;
    }
    (c.wanted <= LAST_NUMBER + 1)
        & (c.rows <= rows::limit(rows))
        & (c.lines <= lines::limit(lines))
        & (c.phase <= LAST_PHASE)
        & (c.taken <= c.wanted - 1)
}
