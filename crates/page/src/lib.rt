// The printed wall as a whole: its lines one after the other, and the text that they are.
#![tactic(auto)]

ghost use Rattle.std.specs.Prelude.{◌≡◌, min, length};
ghost use Rattle.std.proofs.lemmas.List.Edits.{sets};
ghost use Rattle.print.specs.Texts.{row_text};
ghost use Rattle.book.specs.State.{lent};
ghost use Rattle.rows.specs.Rows.{row_in, used_rows};
ghost use Rattle.page.specs.Printable.{Printable};
ghost use Rattle.page.specs.Page.{shown_row, end_text, ending_at, line_of, wall_of};

use bounds::lesser;
use counters::Counters;
use single::left;
use tape::Stop;

// Where a tape stops whose play stands at an offset for that reason: at the kind byte of what cannot be played, or
// nowhere, if nothing is left of it.
pub fn ended(stop: Stop, at: u64) -> Option<u64>
    ensures { result ≡ ending_at stop at }
{
    match stop {
        Stop::Ended => None,
        Stop::NoKind | Stop::CutShort => Some(at),
    }
}

// How many rows there are to print.
fn printed(c: Counters, rows: &[u8]) -> usize
    ensures { result ≡ length (used_rows rows.now c.rows) }
{
    lesser(c.rows, rows::limit(rows.len()))
}

// The line of row i of the room, with the figures of its symbol's lines. No search is needed: the place is known.
fn row_line(c: Counters, rows: &[u8], lines: &[u8], i: usize, out: &mut [u8]) -> usize
    ensures bytes { out.new ≡ sets out.old 0
        (row_text (shown_row (lent c rows.now lines.now) (row_in rows.now i))) }
    ensures count { result ≡ length
        (row_text (shown_row (lent c rows.now lines.now) (row_in rows.now i))) }
{
    let kept = rows::get(rows, i);
    let figures = walk::walk(lines, c.lines, kept.listing.symbol);
    print::row(show::shown(kept, figures), out)
}

// The line that says where the tape stops, if it does.
fn end_line(ending: Option<u64>, out: &mut [u8]) -> usize
    ensures bytes { out.new ≡ sets out.old 0 (end_text ending) }
    ensures count { result ≡ length (end_text ending) }
{
    match ending {
        None => 0,
        Some(at) => print::stops(at, out),
    }
}

// Writes line k of the wall and tells its length: the columns' names, a row for each listing, the closing line, and
// where the tape stops. Past the last line nothing is written. Whoever writes the wall line by line calls it by a
// number (`line_of`).
pub fn line(
    c: Counters,
    rows: &[u8],
    lines: &[u8],
    ending: Option<u64>,
    k: usize,
    out: &mut [u8],
) -> usize
    ensures bytes { out.new
        ≡ sets out.old 0 (line_of (lent c rows.now lines.now) ending k) }
    ensures count { result ≡ length (line_of (lent c rows.now lines.now) ending k) }
{
    let n = printed(c, rows);
    if k == 0 {
        return print::header(out);
    }
    if k <= n {
        return row_line(c, rows, lines, left(k, 1), out);
    }
    if k == n + 1 {
        return print::closing(c.taken, c.wanted, out);
    }
    if k == n + 2 {
        return end_line(ending, out);
    }
    0
}

// Writes the whole wall, as far as there is room, and tells how many bytes that are. The clause `types` says what the
// types of the parameters say of what came in.
pub fn write(c: Counters, rows: &[u8], lines: &[u8], ending: Option<u64>, out: &mut [u8]) -> usize
    ensures bytes { out.new
        ≡ sets out.old 0 (wall_of (lent c rows.now lines.now) ending) }
    ensures count { result
        ≡ min (length (wall_of (lent c rows.now lines.now) ending)) (length out.old) }
    ensures types { Printable (lent c rows.now lines.now) ending }
{
    let end = printed(c, rows) + 3;
    let room = out.len();
    let mut at: usize = 0;
    // Each line goes behind the one before, in what is left of the room: no iterator lends that.
    for k in 0..end {
        let n = line(c, rows, lines, ending, k, &mut out[at..]);
        at += lesser(n, room - at);
    }
    at
}
