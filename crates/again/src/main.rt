// Each sound message read and written back, and what is refused.
#![tactic(auto)]

mod back;
mod refused;
mod sound;
mod told;

ghost use Rattle.std.specs.Prelude.{◌<◌, ◌^◌};

use std::io::{Result, Write};

fn main(rt: HostRuntime) -> Result<()> {
    let mut out = rt.stdout();
    there_and_back::<6, 9, _>(&mut out, b'S')?;
    there_and_back::<45, 48, _>(&mut out, b'T')?;
    there_and_back::<45, 48, _>(&mut out, b'X')?;
    there_and_back::<67, 70, _>(&mut out, b'C')?;
    there_and_back::<34, 37, _>(&mut out, b'J')?;
    refused::reads(&mut out)?;
    refused::writes(&mut out)
}

// A message of N bytes of the type that a letter names, read and written back into a space of ROOM bytes.
fn there_and_back<const N: usize, const ROOM: usize, W: Write>(
    out: &mut W,
    letter: u8,
) -> Result<()>
    requires message { N < 2 ^ 63 }
    requires space { ROOM < 2 ^ 63 }
{
    telling::words(out, &[letter, b'\n'])?;
    back::again(out, &sound::of_type::<N>(letter), &mut [back::MARKER; ROOM])
}
