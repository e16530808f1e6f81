// A tape that is being read: the book so far, and how the next piece goes on with it.
ghost use Rattle.std.specs.Prelude.{◌≡◌};
ghost use Rattle.book.specs.State.{lent};
ghost use Rattle.feed.specs.Reading.{nothing_read, standing, gone, GoneTyped};

use counters::Counters;
use editions::Edition;
use tape::Stop;

// The book's counters, how many bytes of an entry that is not whole yet stand at the front of the piece, the offset on
// the tape of the first byte that is not played, modulo 2 to the 64, and why the play stands there.
#[derive(Clone, Copy)]
pub struct Reading {
    pub counters: Counters,
    pub held: usize,
    pub at: u64,
    pub stop: Stop,
}

// A fresh book of NLS Plus, which is what a tape brings, and a tape of which nothing is read.
pub fn begin() -> Reading
    ensures { result ≡ nothing_read }
{
    Reading {
        counters: book::fresh(Edition::NlsPlus),
        held: 0,
        at: 0,
        stop: Stop::Ended,
    }
}

// Goes on with the first n bytes of a piece: those that were held, and new ones behind them. The clause `types` says
// what the types of the parameters say of what came in.
pub fn go_on(r: Reading, rows: &mut [u8], lines: &mut [u8], piece: &mut [u8], n: usize) -> Reading
    ensures stands { standing result (lent result.counters rows.new lines.new) piece.new
        ≡ gone r.at (lent r.counters rows.old lines.old) n piece.old }
    ensures types { GoneTyped lines.old piece.old }
{
    let fed = crate::feed(r.counters, rows, lines, piece, n);
    Reading {
        counters: fed.counters,
        held: fed.held,
        at: r.at.wrapping_add(fed.used as u64),
        stop: fed.stop,
    }
}
