// How the program ended. Its exit status is 0 whatever became of the tape: it writes a digit where it is asked to.
ghost use Rattle.std.specs.Prelude.{◌≡◌, OnOk, []};
ghost use Rattle.std.specs.Io.KnownBytes.{Appends};
ghost use Rattle.wall.specs.Status as Status;

use crate::input::Rest;
use std::env::FillError;
use std::fs::OpenOptions;
use std::io::{Result, Write};
use std::rt::{Env, Files};
use tape::Stop;

// Where the status goes: a descriptor that whoever asks for it has opened, by its name among files.
const STATUS: &str = "/dev/fd/3";

const PLAYED: u8 = b'0';

const FAILED: u8 = b'1';

const STOPS: u8 = b'3';

// A tape that ended or stops, by why its play stands there.
fn of_tape(stop: Stop) -> u8
    ensures { result ≡ Status.tape_status stop }
{
    match stop {
        Stop::Ended => PLAYED,
        Stop::NoKind | Stop::CutShort => STOPS,
    }
}

// A tape, by what is known of its rest.
fn of_rest(rest: Rest, stop: Stop) -> u8
    ensures { result ≡ Status.read_status rest stop }
{
    match rest {
        Rest::Closed => of_tape(stop),
        Rest::Open => FAILED,
        Rest::Unread => FAILED,
    }
}

// The digit of a play: what is known of the rest of the tape, why the play stands, and whether all was written.
pub fn digit(rest: Rest, stop: Stop, written: bool) -> u8
    ensures { result ≡ Status.status_of rest stop written }
{
    if written { of_rest(rest, stop) } else { FAILED }
}

// What went wrong with the tape or with the wall, in a line.
pub fn complain<W: Write>(out: &mut W, rest: Rest, written: bool) -> Result<()>
    ensures line { OnOk result (Appends (W.contents out.old) (W.contents out.new)
        (Status.complaint rest written)) }
    ensures quiet { Status.complaint rest written ≡ [] → W.contents out.new ≡ W.contents out.old }
{
    match rest {
        Rest::Closed => unwritten(out, written),
        _ => out.write_all(b"wall: the tape could not be read to its end: no wall is printed\n"),
    }
}

fn unwritten<W: Write>(out: &mut W, written: bool) -> Result<()>
    ensures line { OnOk result (Appends (W.contents out.old) (W.contents out.new)
        (Status.unwritten written)) }
    ensures quiet { Status.unwritten written ≡ [] → W.contents out.new ≡ W.contents out.old }
{
    if written {
        Ok(())
    } else {
        out.write_all(b"wall: the wall could not be written\n")
    }
}

// Writes the digit and a newline to the descriptor for it, if the program was started with an argument. Behind what a
// file there has already, as a write to the descriptor itself would stand.
pub fn tell<R: Env + Files>(rt: &R, d: u8) -> Result<()> {
    if !is_asked(rt) {
        return Ok(());
    }
    let mut to = OpenOptions::new().append(true).open(rt, STATUS)?;
    to.write_all(&[d, b'\n'])
}

// Whether the program was started with an argument, whatever it says: one that is too long for the room is one too.
fn is_asked<R: Env>(rt: &R) -> bool {
    let mut word = [0u8; 1];
    !matches!(rt.arg(1, &mut word), Err(FillError::NotPresent))
}
