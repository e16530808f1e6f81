// Playing a part of a tape on a book. A tape of any length is played part by part: what a part leaves over goes before
// the next.
#![tactic(auto)]

mod entries;

ghost use Rattle.std.specs.Prelude.{◌≡◌};
ghost use Rattle.book.specs.State.{lent};
ghost use Rattle.tape.specs.Playing.{came, played};

use counters::Counters;
use entries::{head_at, play_entry};

// Why the play of a part stopped.
#[derive(Clone, Copy)]
pub enum Stop {
    // Nothing is left.
    Ended,
    // The next byte is no kind.
    NoKind,
    // The next byte is a kind, and its body is not whole.
    CutShort,
}

// What came of a play: the counters after it, how many bytes were used, and why it stopped there.
#[derive(Clone, Copy)]
pub struct Played {
    pub counters: Counters,
    pub used: usize,
    pub stop: Stop,
}

// Plays the whole entries at the head of a part of a tape. Whatever the book answers to one, the next is played.
pub fn play(c: Counters, rows: &mut [u8], lines: &mut [u8], part: &[u8]) -> Played
    ensures { came result (lent result.counters rows.new lines.new)
        ≡ played (lent c rows.old lines.old) part.now }
{
    let mut counters = c;
    let mut at: usize = 0;
    // The place moves by the length of each entry, so no range counts it.
    loop {
        match head_at(part, at) {
            Err(stop) => {
                return Played {
                    counters,
                    used: at,
                    stop,
                };
            }
            Ok(n) => {
                let end = at + n;
                counters = play_entry(counters, rows, lines, &part[at..end]);
                at = end;
            }
        }
    }
}
