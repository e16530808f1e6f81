// Plays the tape on standard input, piece by piece, and prints the wall once it ends. A tape that could not be read to
// its end has no wall: it would look like a whole day's.
#![tactic(auto)]

mod day;
mod input;
mod paper;
mod rooms;
mod status;

fn main(rt: HostRuntime) {
    let mut rows = rooms::for_rows();
    let mut lines = rooms::for_lines();
    let day = day::play(&mut rt.stdin(), &mut rt.stdout(), &mut rows, &mut lines);
    // Where the message or the digit cannot be written, nobody is left to be told so.
    let _ = status::complain(&mut rt.stderr(), day.rest, day.written);
    let _ = status::tell(&rt, status::digit(day.rest, day.stop, day.written));
}
