// The counters of a book: what moves together as one value. Each move returns the new value; whatever counters
// arrive, it is total.
#![tactic(auto)]

ghost use Rattle.std.specs.Prelude.{◌≡◌};
ghost use Rattle.counters.specs.Counting as Counting;

use bounds::up;
use editions::Edition;
use kinds::{Kind, is_event, makes_new};
use phases::phase_of;

// What a book is started with. No move changes it.
#[derive(Clone, Copy)]
pub struct Start {
    // The edition whose layouts the book reads its messages by.
    pub edition: Edition,
}

// What the book was started with, the wanted number, the phase, and the counts: rows used, lines used, messages
// taken. The phase is 0 before any event was taken, then 1 to 6 for O S Q M E C. It is a number and no enum, since it
// comes from C as any number: a book whose phase is none of these is answered 17 (`sound`).
#[derive(Clone, Copy)]
pub struct Counters {
    pub start: Start,
    pub wanted: u64,
    pub phase: u64,
    pub rows: usize,
    pub lines: usize,
    pub taken: u64,
}

// The greatest number that a message may bear.
pub const LAST_NUMBER: u64 = 4294967295;

// What a book of an edition starts from.
pub fn fresh(edition: Edition) -> Counters
    ensures { result ≡ Counting.fresh_counters edition }
{
    Counters {
        start: Start { edition },
        wanted: 1,
        phase: 0,
        rows: 0,
        lines: 0,
        taken: 0,
    }
}

impl Counters {
    // A number used up, all else equal.
    pub fn use_up(mut self) -> Counters
        ensures { result ≡ Counting.used_up self }
    {
        self.wanted = up(self.wanted);
        self
    }

    // An event taken: its phase begins.
    pub fn advance(mut self, phase: u64) -> Counters
        ensures { result ≡ Counting.advanced phase self }
    {
        self.phase = phase;
        self
    }

    // One more message taken.
    pub fn count_taken(mut self) -> Counters
        ensures { result ≡ Counting.counted_taken self }
    {
        self.taken = up(self.taken);
        self
    }

    // One more row used.
    pub fn add_row(mut self) -> Counters
        ensures { result ≡ Counting.one_row_more self }
    {
        self.rows = up(self.rows as u64) as usize;
        self
    }

    // One more line used.
    pub fn add_line(mut self) -> Counters
        ensures { result ≡ Counting.one_line_more self }
    {
        self.lines = up(self.lines as u64) as usize;
        self
    }

    // A message taken: its number used up and it counted; an event begins its phase, and T and C use a line.
    pub fn take(self, kind: Kind, event: u8) -> Counters
        ensures { result ≡ Counting.taken_by kind event self }
    {
        let moved = self.use_up().count_taken();
        if is_event(kind) {
            return moved.advance(phase_of(event));
        }
        if makes_new(kind) {
            return moved.add_line();
        }
        moved
    }
}
