// A day from its tape to its wall.
ghost use Rattle.book.specs.State.{lent};
ghost use Rattle.editions.specs.declared.Edition.TheVariants.{NlsPlus};
ghost use Rattle.counters.specs.Counting.{fresh_counters};
ghost use Rattle.wall.specs.Reads.{DayIs};

use crate::input::{Rest, Tape};
use crate::{input, paper};
use std::io::{Read, Write};
use tape::Stop;

// What is known of the rest of the tape, why its play stands where it does, and whether its wall was written.
#[derive(Clone, Copy)]
pub struct Day {
    pub rest: Rest,
    pub stop: Stop,
    pub written: bool,
}

// Plays a tape and prints its wall. Of one that could not be read to its end nothing is printed.
pub fn play<R: Read, W: Write>(input: &mut R, out: &mut W, rows: &mut [u8], lines: &mut [u8]) -> Day
    ensures { DayIs (lent (fresh_counters NlsPlus) rows.old lines.old) (R.remaining input.old)
        (R.remaining input.new) (W.contents out.old) (W.contents out.new) result }
{
    let Tape { reading, rest } = input::all(input, rows, lines);
    let written = match rest {
        Rest::Closed => paper::print(out, reading, rows, lines).is_ok(),
        _ => false,
    };
    Day {
        rest,
        stop: reading.stop,
        written,
    }
}
