// Lines: one cell of bytes for each trade.
#![tactic(auto)]

ghost use Rattle.std.specs.Prelude.{◌≡◌, ◌+◌, ◌*◌, ◌≤◌, length};
ghost use Rattle.std.proofs.lemmas.List.Edits.{sets};
ghost use Rattle.lines.specs.Cell.{line_cap, line_cell};
ghost use Rattle.lines.specs.Lines.{line_from, line_bytes, no_line, line_limit, used_lines};
ghost use Rattle.lines.specs.Lines.{line_with, line_in, with_line, with_dead};
ghost use Rattle.lines.specs.Alone.{line_alone};
ghost use borrow.Author.Rules.{rules};

use bounds::lesser;
use cells::{Cell, place};
use octets::run::bytes;

// The key is the centre and the control. `place` is the number of the message that first made the trade.
#[derive(Clone, Copy)]
pub struct Line {
    pub key: [u8; KEY],
    pub symbol: [u8; 8],
    pub price: u32,
    pub size: u32,
    pub condition: [u8; 4],
    pub place: u32,
    pub time: u32,
    pub live: bool,
}

// At most this many lines, however long the room.
pub const CAP: usize = 65536;

// A key is the centre, one byte, and the control, ten.
pub const KEY: usize = 11;

// The cell, and where each field stands in it; the key stands first.
pub const CELL: usize = 40;

pub const SYMBOL: usize = KEY;

pub const PRICE: usize = 19;

pub const SIZE: usize = 23;

pub const CONDITION: usize = 27;

pub const PLACE: usize = 31;

const TIME: usize = 35;

pub const LIVE: usize = 39;

// How many lines a room of that many bytes holds. A name that theorems and other crates cite; `cells` does the work.
pub fn limit(room: usize) -> usize
    ensures { result ≡ line_limit room }
{
    cells::limit::<Line>(room)
}

// The first used line that bears the key. Two loops over indices, left by label: the one place where document 01 names
// the form of a search (docs/DECISIONS.md, "The language forms that document 01 names").
pub fn find(lines: &[u8], used: usize, key: [u8; KEY]) -> Option<usize>
    ensures { result ≡ line_with key (used_lines lines.now used) }
{
    let n = lesser(used, limit(lines.len()));
    let mut i: usize = 0;
    'lines: loop {
        if n <= i {
            break 'lines None;
        }
        let mut j: usize = 0;
        'bytes: loop {
            if j == KEY {
                break 'lines Some(i);
            }
            if lines[i * CELL + j] != key[j] {
                break 'bytes;
            }
            j += 1;
        }
        i += 1;
    }
}

impl Cell for Line {
    const BYTES: usize = CELL;

    const CAP: usize = CAP;

    ghost BYTES = { line_cell };

    ghost CAP = { line_cap };

    ghost read = { line_from };

    ghost none = { no_line };

    ghost some_bytes = { Prim.search rules };

    ghost alone = { line_alone };

    #[tactic(auto, unfolding(crate::specs::Lines::line_from))]
    fn read(cell: &[u8]) -> Line {
        Line {
            key: bytes(cell, 0),
            symbol: bytes(cell, SYMBOL),
            price: numbers::number(cell, PRICE),
            size: numbers::number(cell, SIZE),
            condition: bytes(cell, CONDITION),
            place: numbers::number(cell, PLACE),
            time: numbers::number(cell, TIME),
            live: single::byte(cell, LIVE) == 1,
        }
    }

    // A dead line of zeros.
    fn none() -> Line {
        Line {
            key: [0; KEY],
            symbol: [0; 8],
            price: 0,
            size: 0,
            condition: [0; 4],
            place: 0,
            time: 0,
            live: false,
        }
    }
}

// Line i of the room; where there is none, a dead line of zeros.
// A name that theorems and other crates cite; `cells` does the work.
#[tactic(auto, unfolding(crate::specs::Lines::line_in))]
pub fn get(lines: &[u8], i: usize) -> Line
    ensures { result ≡ line_in lines.now i }
{
    cells::get(lines, i)
}

// Stores a line in the cell that starts at an offset.
fn store(lines: &mut [u8], at: usize, l: Line)
    requires { at + line_cell ≤ length lines.old }
    ensures { lines.new ≡ sets lines.old at (line_bytes l) }
{
    octets::run::paste(lines, at, &l.key);
    octets::run::paste(lines, at + SYMBOL, &l.symbol);
    numbers::put(lines, at + PRICE, l.price);
    numbers::put(lines, at + SIZE, l.size);
    octets::run::paste(lines, at + CONDITION, &l.condition);
    numbers::put(lines, at + PLACE, l.place);
    numbers::put(lines, at + TIME, l.time);
    lines[at + LIVE] = u8::from(l.live);
}

// Stores line i of the room, where the room has such a line.
#[tactic(auto, unfolding(crate::specs::Lines::with_line))]
pub fn put(lines: &mut [u8], i: usize, l: Line)
    ensures { lines.new ≡ with_line lines.old i l }
{
    if let Some(at) = place::<Line>(lines.len(), i) {
        store(lines, at, l);
    }
}

// Makes line i of the room dead, where the room has such a line.
#[tactic(auto, unfolding(crate::specs::Lines::with_dead))]
pub fn kill(lines: &mut [u8], i: usize)
    ensures { lines.new ≡ with_dead lines.old i }
{
    if let Some(at) = place::<Line>(lines.len(), i) {
        lines[at + LIVE] = 0;
    }
}
