// A script's lines, one after the other. What stands before a bar is told as it is. Then comes a letter; the numbers
// after it stand in brackets, as `form` says:
// B starts a fresh book of NLS Plus: {bytes for rows}{bytes for lines}, a byte that fills both;
// K sets its counters: {wanted}{phase}{rows}{lines}{taken}; r and l store bytes in a room: {place}bytes;
// L lists: symbol<close>; R reads a row: symbol; D delivers: {number}message; N tells the book as it is;
// W writes an event into the rows' room, M reads that room as a message;
// T and U tell the rows' and the lines' room, with what follows before each cell; a dot ends what is told.
// Any other line is passed over.
use crate::form::Pen;
use crate::play::Day;
use crate::rooms;
use counters::Counters;
use editions::Edition;
use numbers::number;
use single::byte;
use std::io::{Result, Write};

// Signs gather in the space until their line ends. At a bar those so far are told, at a line's end they are played.
pub fn play<W: Write>(out: &mut W, text: &[u8], day: &mut Day<'_>) -> Result<()> {
    let mut space = [0; 128];
    let mut pen = Pen::default();
    for b in text {
        let code = &space[..pen.at.min(space.len())];
        match *b {
            b'\n' => line(out, day, code)?,
            b'|' => telling::words(out, code)?,
            _ => (),
        }
        pen = pen.sign(&mut space, *b);
    }
    Ok(())
}

// One line. Its first letter is the script's own, and each does something else: a `match` says so more plainly than a
// table of functions.
fn line<W: Write>(out: &mut W, day: &mut Day<'_>, code: &[u8]) -> Result<()> {
    match byte(code, 0) {
        b'B' => open(day, code),
        b'K' => day.counters = counters(code),
        b'L' => return day.list(out, code),
        b'D' => return day.deliver(out, code),
        b'r' => day.rows.paste(code),
        b'l' => day.lines.paste(code),
        b'W' => return day.write(out, code),
        _ => return look(out, day, code),
    }
    Ok(())
}

// A fresh book in rooms full of one byte.
fn open(day: &mut Day<'_>, code: &[u8]) {
    let b = byte(code, 17);
    day.counters = book::fresh(Edition::NlsPlus);
    day.rows.open(number::<u64>(code, 1) as usize, b);
    day.lines.open(number::<u64>(code, 9) as usize, b);
}

fn counters(code: &[u8]) -> Counters {
    Counters {
        wanted: number(code, 1),
        phase: number(code, 9),
        rows: number::<u64>(code, 17) as usize,
        lines: number::<u64>(code, 25) as usize,
        taken: number(code, 33),
        ..book::fresh(Edition::NlsPlus)
    }
}

// What changes nothing.
fn look<W: Write>(out: &mut W, day: &Day<'_>, code: &[u8]) -> Result<()> {
    match byte(code, 0) {
        b'R' => day.row(out, code),
        b'N' => day.state(out),
        b'M' => day.read(out),
        b'T' => rooms::tell(out, day.rows.lent(), 30, b"[........ 4 J1 4 4 R1 8]", code),
        b'U' => rooms::tell(
            out,
            day.lines.lent(),
            40,
            b"[........... ........ 4 4 .... 4 4 1]",
            code,
        ),
        b'.' => telling::words(out, b"\n"),
        _ => Ok(()),
    }
}
