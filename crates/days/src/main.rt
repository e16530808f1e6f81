// Days played from a script: each call with what it answers and the book after it.
#![tactic(auto)]

mod form;
mod play;
mod rooms;
mod script;
mod shown;

ghost use Rattle.std.specs.Prelude.{◌≤◌, length, take, IfOk};
ghost use Rattle.std.specs.Io.KnownBytes.{Consumes};

use editions::Edition;
use play::Day;
use std::io::{Read, Result};

// A script has at most 65,536 bytes, a line of it stands for at most 128. A book has up to 257 rows and 12 lines.
fn main(rt: HostRuntime) -> Result<()> {
    let mut text = [0; 65536];
    let n = filled(&mut rt.stdin(), &mut text)?;
    let mut rows = [0; 7710];
    let mut lines = [0; 480];
    let mut day = Day {
        counters: book::fresh(Edition::NlsPlus),
        rows: rooms::unlent(&mut rows),
        lines: rooms::unlent(&mut lines),
    };
    script::play(&mut rt.stdout(), &text[..n], &mut day)
}

// Reads until the room is full or the input ends, and returns how many bytes stand at the room's start. How often a
// reader has to be asked is known only as it is asked, so no range counts it.
fn filled<R: Read>(input: &mut R, room: &mut [u8]) -> Result<usize>
    ensures within { IfOk result (λ n. n ≤ length room.new) }
    ensures bytes { IfOk result (λ n. Consumes (R.remaining input.old) (R.remaining input.new)
        (take n room.new)) }
{
    let mut done = 0;
    while done < room.len() {
        let n = input.read(&mut room[done..])?;
        if n == 0 {
            break;
        }
        done += n;
    }
    Ok(done)
}
