// The tape, read in pieces of any size. What a piece comes to is told by `feed`; here bytes are moved.
ghost use Rattle.std.specs.Prelude.{◌≡◌, ◌<◌, List, ℕ, true, length};
ghost use Rattle.editions.specs.declared.Edition.TheVariants.{NlsPlus};
ghost use Rattle.counters.specs.Counting.{fresh_counters};
ghost use Rattle.book.specs.State.{State, lent};
ghost use Rattle.feed.specs.Reading.{standing, gone};
ghost use Rattle.wall.specs.Reads.{AllPlayed, ReadSoFar, ReadMore, is_open, rest_after};

use feed::reading::{Reading, go_on};
use std::io::Read;
use tape::Stop;

// Room for a piece of the tape.
const PIECE: usize = 4096;

// What is known of the rest of the tape: three cases, so no Option.
#[derive(Clone, Copy)]
pub enum Rest {
    // It may go on.
    Open,
    // No more is read: the tape is at its end, or a byte is no kind.
    Closed,
    // It could not be read further.
    Unread,
}

// How the reading stands, and the rest of the tape.
#[derive(Clone, Copy)]
pub struct Tape {
    pub reading: Reading,
    pub rest: Rest,
}

// Reads a tape to its end, or to a byte that is no kind, and plays it on a fresh book. What a reader gave
// before it could not be read further is played too.
// A proved loop has to end, and nothing says that a tape does: the turns are more than any run uses up.
pub fn all<R: Read>(input: &mut R, rows: &mut [u8], lines: &mut [u8]) -> Tape
    ensures { AllPlayed (lent (fresh_counters NlsPlus) rows.old lines.old) (R.remaining input.old)
        (R.remaining input.new) result (lent result.reading.counters rows.new lines.new) }
{
    let mut piece = [0u8; PIECE];
    let mut tape = Tape {
        reading: feed::reading::begin(),
        rest: Rest::Open,
    };
    for _ in 0..u64::MAX {
        if !is_open(tape) {
            break;
        }
        tape = one(input, tape, rows, lines, &mut piece);
    }
    tape
}

fn is_open(tape: Tape) -> bool
    ensures { result ≡ is_open tape.rest }
{
    matches!(tape.rest, Rest::Open)
}

// One reading, behind what is held, and what can be played of it. Less is held than the piece has room for
// (`held_short` in crates/feed/proofs/Pieces.antt), so that the lesser of the two is what is held.
fn one<R: Read>(
    input: &mut R,
    tape: Tape,
    rows: &mut [u8],
    lines: &mut [u8],
    piece: &mut [u8],
) -> Tape
    ensures { (s : State) → (before : List ℕ) → 71 < length piece.old → is_open tape.rest ≡ true
        → ReadSoFar s before tape.rest (standing tape.reading
        (lent tape.reading.counters rows.old lines.old) piece.old) (R.remaining input.old)
        → ReadMore s before (R.remaining input.old) (R.remaining input.new) result.rest
        (standing result.reading (lent result.reading.counters rows.new lines.new) piece.new) }
{
    let reading = tape.reading;
    let from = reading.held.min(piece.len());
    let rest = match input.read(&mut piece[from..]) {
        Ok(0) => Rest::Closed,
        Ok(n) => return play_on(reading, rows, lines, piece, from + n),
        Err(_) => Rest::Unread,
    };
    Tape { reading, rest }
}

// Plays the first n bytes of the piece. The piece is all of the room that is read into, since what is held moves to its
// front.
fn play_on(reading: Reading, rows: &mut [u8], lines: &mut [u8], piece: &mut [u8], n: usize) -> Tape
    ensures stands { standing result.reading (lent result.reading.counters rows.new lines.new) piece.new
        ≡ gone reading.at (lent reading.counters rows.old lines.old) n piece.old }
    ensures rest { result.rest ≡ rest_after result.reading.stop }
{
    let reading = go_on(reading, rows, lines, piece, n);
    Tape {
        reading,
        rest: after(reading.stop),
    }
}

// Where a byte is no kind, nothing that follows it matters.
fn after(stop: Stop) -> Rest
    ensures { result ≡ rest_after stop }
{
    match stop {
        Stop::NoKind => Rest::Closed,
        _ => Rest::Open,
    }
}
