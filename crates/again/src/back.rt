// A message read, a record written, and both told.
use crate::told;
use editions::Edition;
use records::Record;
use std::io::{Result, Write};

// What a lent space holds before a record is written.
pub const MARKER: u8 = 0xee;

// Reads a message, and writes the record back into a space.
pub fn again<W: Write>(out: &mut W, message: &[u8], space: &mut [u8]) -> Result<()> {
    let r = read(out, message)?;
    write(out, r, space)
}

// Reads a message, and tells its bytes, the answer and the record.
pub fn read<W: Write>(out: &mut W, message: &[u8]) -> Result<Record> {
    telling::words(out, b"given ")?;
    telling::hex(out, message)?;
    let said = message::read(Edition::NlsPlus, message);
    write!(out, "\nread {}", answers::number(said.map(|_| ())))?;
    let found = message::found(said);
    told::tell(out, found)?;
    Ok(found)
}

// Writes a record, and tells the answer and the space's bytes.
pub fn write<W: Write>(out: &mut W, r: Record, space: &mut [u8]) -> Result<()> {
    let answer = message::write(Edition::NlsPlus, r, space);
    write!(out, "write {}\nspace ", answers::number(answer))?;
    telling::hex(out, space)?;
    telling::words(out, b"\n")
}
