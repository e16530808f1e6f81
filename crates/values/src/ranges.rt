// The answers to a number field at 0, 1, its top, one past its top and the largest value of its width.
use crate::tried::Tried;
use numbers::Unsigned;
use std::io::{Result, Write};
use std::num::TryFromIntError;

// The answers at both ends of a number's range, and just past its top where the width has room for that.
pub fn number<T: Unsigned + TryFrom<u64, Error = TryFromIntError>, W: Write>(
    out: &mut W,
    m: Tried,
    name: &[u8],
    at: usize,
    top: u64,
) -> Result<()> {
    telling::label(out, m.letter, name)?;
    for x in [Some(0), Some(1), Some(top), top.checked_add(1)] {
        let x = x.and_then(|x| T::try_from(x).ok());
        answer(out, m, at, x)?;
    }
    answer(out, m, at, Some(T::first(&[u8::MAX; 8])))?;
    telling::words(out, b"\n")
}

// The answer with another number at a place; a dash for a number that the width has no room for.
fn answer<T: Unsigned, W: Write>(out: &mut W, m: Tried, at: usize, x: Option<T>) -> Result<()> {
    match x {
        None => telling::words(out, b" -"),
        Some(x) => write!(out, " {}", m.with_number(at, x).answer()),
    }
}
