// The values of one byte that the reader takes, all else sound.
ghost use Rattle.std.specs.Prelude.{◌+◌, ◌<◌};

use crate::runs;
use crate::tried::Tried;
use std::io::{Result, Write};

// A field of one byte.
pub fn letter<W: Write>(out: &mut W, m: Tried, name: &[u8], at: usize) -> Result<()> {
    telling::label(out, m.letter, name)?;
    taken(out, m, at)
}

// A text of n bytes, each byte by itself.
pub fn text<W: Write>(out: &mut W, m: Tried, name: &[u8], at: usize, n: usize) -> Result<()>
    requires { at + n < 80 }
{
    for j in 0..n {
        telling::label(out, m.letter, name)?;
        write!(out, ".{j}")?;
        taken(out, m, at + j)?;
    }
    Ok(())
}

fn taken<W: Write>(out: &mut W, m: Tried, at: usize) -> Result<()> {
    let mut answers = [0; 256];
    for (b, answer) in (0..=u8::MAX).zip(answers.iter_mut()) {
        *answer = m.with_byte(at, b).answer();
    }
    runs::tell_taken(out, &answers)
}
