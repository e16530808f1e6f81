// Rows: one cell of bytes for each listed symbol. The listings of the used rows, in their order, are the sheet of the
// day.
#![tactic(auto)]

ghost use Rattle.std.specs.Prelude.{◌≡◌};
ghost use Rattle.rows.specs.Alone.{row_alone};
ghost use Rattle.rows.specs.Cell.{row_cap, row_cell};
ghost use Rattle.rows.specs.Rows.{listing_from, row_from, no_row, summary_at, reported_at};
ghost use Rattle.rows.specs.Rows.{row_limit, used_sheet, listing_of, row_in};
ghost use Rattle.rows.specs.Rows.{with_row, with_report, with_summary};
ghost use borrow.Author.Rules.{rules};

use bounds::lesser;
use cells::{Cell, cut, place};
use octets::run::bytes;

// What is listed: a symbol and its adjusted previous close. A close of 0 is unknown.
#[derive(Clone, Copy)]
pub struct Listing {
    pub symbol: [u8; 8],
    pub close: u32,
}

// A high and a low.
#[derive(Clone, Copy)]
pub struct HighLow {
    pub high: u32,
    pub low: u32,
}

// A listing, and what messages of its symbol left in its row: what the latest J that was taken says, and the
// consolidated volume that was reported last.
#[derive(Clone, Copy)]
pub struct Row {
    pub listing: Listing,
    pub summary: Option<HighLow>,
    pub reported: Option<u64>,
}

// At most this many rows, however long the room.
pub const CAP: usize = 256;

// The cell, and where each field stands in it; the symbol stands first.
pub const CELL: usize = 30;

const CLOSE: usize = 8;

const SUMMARY: usize = 12;

const HIGH: usize = 13;

const LOW: usize = 17;

const REPORTED: usize = 21;

const VOLUME: usize = 22;

// How many rows a room of that many bytes holds. A name that theorems and other crates cite; `cells` does the work.
pub fn limit(room: usize) -> usize
    ensures { result ≡ row_limit room }
{
    cells::limit::<Row>(room)
}

// Which used row is the first of the symbol. How many are used stands beside the room and is not its length: C lends
// all of the room, and the counters say how much of it is used. The eight bytes of a symbol are compared as one number.
// A `for`: `chunks_exact` with `position` takes an instruction more for each row passed over.
pub fn find(rows: &[u8], used: usize, symbol: [u8; 8]) -> Option<usize>
    ensures { result ≡ listing_of symbol (used_sheet rows.now used) }
{
    let n = lesser(used, limit(rows.len()));
    let name = eights::low8(&symbol, 0);
    for i in 0..n {
        if eights::low8(cut::<Row>(rows, i), 0) == name {
            return Some(i);
        }
    }
    None
}

// What a cell keeps of its symbol's J.
#[tactic(auto, unfolding(crate::specs::Rows::summary_at))]
fn summary_in(cell: &[u8]) -> Option<HighLow>
    ensures { result ≡ summary_at cell.now 0 }
{
    if single::byte(cell, SUMMARY) == 1 {
        Some(HighLow {
            high: numbers::number(cell, HIGH),
            low: numbers::number(cell, LOW),
        })
    } else {
        None
    }
}

// The volume that a cell keeps as reported.
#[tactic(auto, unfolding(crate::specs::Rows::reported_at))]
fn reported_in(cell: &[u8]) -> Option<u64>
    ensures { result ≡ reported_at cell.now 0 }
{
    if single::byte(cell, REPORTED) == 1 {
        Some(numbers::number(cell, VOLUME))
    } else {
        None
    }
}

// The listing that a cell keeps.
#[tactic(auto, unfolding(crate::specs::Rows::listing_from))]
fn listing_in(cell: &[u8]) -> Listing
    ensures { result ≡ listing_from cell.now 0 }
{
    Listing {
        symbol: bytes(cell, 0),
        close: numbers::number(cell, CLOSE),
    }
}

impl Cell for Row {
    const BYTES: usize = CELL;

    const CAP: usize = CAP;

    ghost BYTES = { row_cell };

    ghost CAP = { row_cap };

    ghost read = { row_from };

    ghost none = { no_row };

    ghost some_bytes = { Prim.search rules };

    ghost alone = { row_alone };

    #[tactic(auto, unfolding(crate::specs::Rows::row_from))]
    fn read(cell: &[u8]) -> Row {
        Row {
            listing: listing_in(cell),
            summary: summary_in(cell),
            reported: reported_in(cell),
        }
    }

    // A row of zeros and absent figures.
    fn none() -> Row {
        Row {
            listing: Listing {
                symbol: [0; 8],
                close: 0,
            },
            summary: None,
            reported: None,
        }
    }
}

// Row i of the room; where there is none, a row of zeros and absent figures.
// A name that theorems and other crates cite; `cells` does the work.
#[tactic(auto, unfolding(crate::specs::Rows::row_in))]
pub fn get(rows: &[u8], i: usize) -> Row
    ensures { result ≡ row_in rows.now i }
{
    cells::get(rows, i)
}

// Stores a new row, without J and with nothing reported, as row i of the room, where the room has such a row.
#[tactic(auto, unfolding(crate::specs::Rows::in_row))]
pub fn put(rows: &mut [u8], i: usize, l: Listing)
    ensures { rows.new ≡ with_row rows.old i l }
{
    if let Some(at) = place::<Row>(rows.len(), i) {
        octets::run::paste(rows, at, &l.symbol);
        numbers::put(rows, at + CLOSE, l.close);
        octets::run::paste(rows, at + SUMMARY, &[0; CELL - SUMMARY]);
    }
}

// Sets the reported volume of row i of the room, where the room has such a row.
#[tactic(auto, unfolding(crate::specs::Rows::in_row))]
pub fn report(rows: &mut [u8], i: usize, volume: u64)
    ensures { rows.new ≡ with_report rows.old i volume }
{
    if let Some(at) = place::<Row>(rows.len(), i) {
        rows[at + REPORTED] = 1;
        numbers::put(rows, at + VOLUME, volume);
    }
}

// Keeps a J's high and low in row i of the room, where the room has such a row.
#[tactic(auto, unfolding(crate::specs::Rows::in_row))]
pub fn summarise(rows: &mut [u8], i: usize, high: u32, low: u32)
    ensures { rows.new ≡ with_summary rows.old i high low }
{
    if let Some(at) = place::<Row>(rows.len(), i) {
        rows[at + SUMMARY] = 1;
        numbers::put(rows, at + HIGH, high);
        numbers::put(rows, at + LOW, low);
    }
}
