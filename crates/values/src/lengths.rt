// The answers to a sound message cut short, or followed by zero bytes, at every length.
use crate::runs;
use crate::tried::Tried;
use std::array;
use std::io::{Result, Write};

// The answers to a message cut or lengthened to each length from 0 to 80.
pub fn every<W: Write>(out: &mut W, m: Tried) -> Result<()> {
    let answers: [u8; 81] = array::from_fn(|n| m.with_length(n).answer());
    telling::label(out, m.letter, b"length")?;
    runs::tell_answers(out, &answers)
}
