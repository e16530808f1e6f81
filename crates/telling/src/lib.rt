// Words, numbers, texts and bytes, for the programs that tell what the library answers. Each function is given a
// writer. After Ok the writer has the bytes that the clause names behind those that it had, where it is known what it
// holds: so of one over memory, and not of standard output. After an error nothing is said.
#![tactic(auto)]

ghost use Rattle.std.specs.Prelude.{OnOk, ◌∷◌, [], ◌++◌, drop};
ghost use Rattle.std.specs.Io.KnownBytes.{Appends};
ghost use Rattle.std.specs.Fmt.{decimal};
ghost use Rattle.telling.specs.Told.{marked, glyph, quoted, hex_byte, hex_bytes};

use std::io::{Result, Write};

// The words as they stand.
pub fn words<W: Write>(out: &mut W, text: &[u8]) -> Result<()>
    ensures { OnOk result (Appends (W.contents out.old) (W.contents out.new) text.now) }
{
    out.write_all(text)
}

// The words that stand from a place on, if any do.
pub fn rest<W: Write>(out: &mut W, text: &[u8], at: usize) -> Result<()>
    ensures { OnOk result (Appends (W.contents out.old) (W.contents out.new) (drop at text.now)) }
{
    words(out, &text[at.min(text.len())..])
}

// A number in decimal.
pub fn number<W: Write>(out: &mut W, x: u64) -> Result<()>
    ensures { OnOk result (Appends (W.contents out.old) (W.contents out.new) (decimal x)) }
{
    write!(out, "{x}")
}

// An answer by its number.
pub fn answer<W: Write>(out: &mut W, x: u8) -> Result<()>
    ensures { OnOk result (Appends (W.contents out.old) (W.contents out.new) (decimal x)) }
{
    write!(out, "{x}")
}

// A number after what it is called.
pub fn field<W: Write>(out: &mut W, name: &[u8], x: u64) -> Result<()>
    ensures { OnOk result (Appends (W.contents out.old) (W.contents out.new) (name.now ++ decimal x)) }
{
    words(out, name)?;
    number(out, x)
}

// A number after a blank, with a mark before that; no mark if the mark is a blank too.
pub fn marked<W: Write>(out: &mut W, mark: u8, x: u64) -> Result<()>
    ensures { OnOk result (Appends (W.contents out.old) (W.contents out.new) (marked mark x)) }
{
    if mark != b' ' {
        words(out, &[mark])?;
    }
    field(out, b" ", x)
}

// What a line is about: a message type's letter, then a name.
pub fn label<W: Write>(out: &mut W, kind: u8, name: &[u8]) -> Result<()>
    ensures { OnOk result (Appends (W.contents out.old) (W.contents out.new) (kind ∷ 32 ∷ name.now)) }
{
    words(out, &[kind])?;
    words(out, b" ")?;
    words(out, name)
}

// A byte in quotes.
pub fn letter<W: Write>(out: &mut W, x: u8) -> Result<()>
    ensures { OnOk result (Appends (W.contents out.old) (W.contents out.new) (quoted (x ∷ []))) }
{
    text(out, &[x])
}

// A text in quotes, a zero byte as \0.
pub fn text<W: Write>(out: &mut W, bytes: &[u8]) -> Result<()>
    ensures { OnOk result (Appends (W.contents out.old) (W.contents out.new) (quoted bytes.now)) }
{
    words(out, b"\"")?;
    for b in bytes {
        glyph(out, *b)?;
    }
    words(out, b"\"")
}

// One byte of a text.
fn glyph<W: Write>(out: &mut W, x: u8) -> Result<()>
    ensures { OnOk result (Appends (W.contents out.old) (W.contents out.new) (glyph x)) }
{
    if x == 0 {
        return words(out, b"\\0");
    }
    words(out, &[x])
}

// Two hexadecimal digits for each byte.
pub fn hex<W: Write>(out: &mut W, bytes: &[u8]) -> Result<()>
    ensures { OnOk result (Appends (W.contents out.old) (W.contents out.new) (hex_bytes bytes.now)) }
{
    for b in bytes {
        hex_byte(out, *b)?;
    }
    Ok(())
}

// The two hexadecimal digits of a byte.
fn hex_byte<W: Write>(out: &mut W, x: u8) -> Result<()>
    ensures { OnOk result (Appends (W.contents out.old) (W.contents out.new) (hex_byte x)) }
{
    write!(out, "{x:02x}")
}
