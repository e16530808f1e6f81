// A tape of any length, played in pieces as they come: what a piece leaves over is moved to its front, and the next is
// read behind it.
#![tactic(auto)]

pub mod reading;

ghost use Rattle.std.specs.Prelude.{◌≡◌};
ghost use Rattle.book.specs.State.{lent};
ghost use Rattle.feed.specs.Feeding.{came_of, fed};

use bounds::lesser;
use counters::Counters;
use octets::run::to_front;
use tape::Stop;

// What came of a piece: the counters after it, how many of its bytes were used, how many are held at its front now, and
// why the play stopped.
#[derive(Clone, Copy)]
pub struct Fed {
    pub counters: Counters,
    pub used: usize,
    pub held: usize,
    pub stop: Stop,
}

// Plays the first n bytes of a piece, or all where it has fewer. The piece is all of the room that is read into, since
// what is held moves to its front.
pub fn feed(c: Counters, rows: &mut [u8], lines: &mut [u8], piece: &mut [u8], n: usize) -> Fed
    ensures { came_of result (lent result.counters rows.new lines.new) piece.new
        ≡ fed (lent c rows.old lines.old) n piece.old }
{
    let k = lesser(n, piece.len());
    let played = tape::play(c, rows, lines, &piece[..k]);
    let held = k - played.used;
    to_front(piece, played.used, held);
    Fed {
        counters: played.counters,
        used: played.used,
        held,
        stop: played.stop,
    }
}
