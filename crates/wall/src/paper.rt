// The wall on paper: the whole text is made by `page`; here its bytes are moved.
ghost use Rattle.std.specs.Prelude.{◌≡◌, ◌≤◌, length, take, OnOk};
ghost use Rattle.std.specs.Io.KnownBytes.{Appends};
ghost use Rattle.rows.specs.Rows.{row_limit};
ghost use Rattle.book.specs.State.{lent};
ghost use Rattle.page.specs.Page.{wall_of, ending_at};
ghost use Rattle.page.specs.Printable.{wall_longest};

use feed::reading::Reading;
use std::io::{Result, Write};

// The longest wall of the program's rows: the columns' names, a line for each row, the closing line and the last one.
const LONGEST: usize = 46 + crate::rooms::ROWS * 130 + 83 + 35;

// Room for the longest wall of 64 rows.
fn space() -> [u8; LONGEST]
    ensures { wall_longest 64 ≡ length result }
{
    [0; LONGEST]
}

// Prints the whole wall, for which there is room if there is none for more than 64 rows.
pub fn print<W: Write>(out: &mut W, reading: Reading, rows: &[u8], lines: &[u8]) -> Result<()>
    ensures { row_limit (length rows.now) ≤ 64 → OnOk result (Appends (W.contents out.old)
        (W.contents out.new) (wall_of (lent reading.counters rows.now lines.now)
        (ending_at reading.stop reading.at))) }
{
    let mut text = space();
    let ending = page::ended(reading.stop, reading.at);
    let n = page::write(reading.counters, rows, lines, ending, &mut text);
    put(out, &text, n)
}

// Writes the first n bytes of a text, or all: `page::write` tells how many of the room it filled.
fn put<W: Write>(out: &mut W, text: &[u8], n: usize) -> Result<()>
    ensures { OnOk result (Appends (W.contents out.old) (W.contents out.new) (take n text.now)) }
{
    out.write_all(&text[..n.min(text.len())])
}
