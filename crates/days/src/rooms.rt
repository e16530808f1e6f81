// Lent bytes, and what they hold: whole cells in fields, then the bytes past them.
ghost use Rattle.std.specs.Prelude.{◌<◌};

use numbers::number;
use octets::run;
use single::byte;
use std::io::{Result, Write};

// A room of bytes, of which a book has the first `size`, or all if there are fewer.
#[derive(Drop)]
pub struct Room<'a> {
    bytes: &'a mut [u8],
    size: usize,
}

// A room of which nothing is lent.
pub fn unlent(bytes: &mut [u8]) -> Room<'_> {
    Room { bytes, size: 0 }
}

impl<'a> Room<'a> {
    // Lends so many bytes, each of one value.
    pub fn open(&mut self, size: usize, b: u8) {
        self.size = size;
        self.lend().fill(b);
    }

    // The bytes that are lent, to be read.
    pub fn lent(&self) -> &[u8] {
        let n = self.size.min(self.bytes.len());
        &self.bytes[..n]
    }

    // The bytes that are lent, to be written.
    pub fn lend(&mut self) -> &mut [u8] {
        let n = self.size.min(self.bytes.len());
        &mut self.bytes[..n]
    }

    // Stores the bytes of a code at the place that stands before them.
    pub fn paste(&mut self, code: &[u8]) {
        if let Some(bytes) = code.get(9..) {
            run::paste(self.lend(), number::<u64>(code, 1) as usize, bytes);
        }
    }

    // A sum that no change of one byte leaves as it was.
    pub fn sum(&self) -> u64 {
        let sum = |sum: u64, b: &u8| (sum % 65521) * 31 + u64::from(*b) + 1;
        self.lent().iter().fold(0, sum) % 65521
    }
}

// A room's cells, with a gap before each. Of a row: symbol, close, J mark, high, low, reported mark, volume. Of a line:
// key, symbol, price, size, condition, place, time, live mark. The gap stands after the first byte of the code.
pub fn tell<W: Write>(out: &mut W, room: &[u8], cell: usize, form: &[u8], code: &[u8]) -> Result<()>
    requires { 0 < cell }
{
    let cells = room.chunks_exact(cell);
    let past = cells.remainder();
    for cell in cells {
        telling::rest(out, code, 1)?;
        tell_cell(out, cell, form)?;
    }
    if !past.is_empty() {
        telling::rest(out, code, 1)?;
        telling::words(out, b"+")?;
        telling::words(out, past)?;
    }
    telling::words(out, b"\n")
}

fn tell_cell<W: Write>(out: &mut W, cell: &[u8], form: &[u8]) -> Result<()> {
    let mut at: usize = 0;
    for sign in form {
        at = at.wrapping_add(tell_part(out, cell, at, *sign)?);
    }
    Ok(())
}

// One sign of a form, and how many bytes it stands for: a dot for one as it is, a digit for a number of so many, any
// other for itself.
fn tell_part<W: Write>(out: &mut W, cell: &[u8], at: usize, sign: u8) -> Result<usize> {
    match sign {
        b'.' => {
            telling::words(out, &[byte(cell, at)])?;
            Ok(1)
        }
        b'1' => {
            write!(out, "{}", byte(cell, at))?;
            Ok(1)
        }
        b'4' => {
            write!(out, "{}", number::<u32>(cell, at))?;
            Ok(4)
        }
        b'8' => {
            write!(out, "{}", number::<u64>(cell, at))?;
            Ok(8)
        }
        _ => {
            telling::words(out, &[sign])?;
            Ok(0)
        }
    }
}
