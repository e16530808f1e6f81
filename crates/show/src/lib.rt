// A row as it is read: what is kept in it and the figures of its symbol's live lines.
#![tactic(auto)]

ghost use Rattle.std.specs.Prelude.{◌≡◌};
ghost use Rattle.show.specs.Showing as Showing;

use figures::{Figures, LastTrade};
use rows::{HighLow, Row};

// What a reader is shown of a row. `net` is last less close, where both are known.
#[derive(Clone, Copy)]
pub struct RowShown {
    pub symbol: [u8; 8],
    pub close: u32,
    pub last: Option<u32>,
    pub high: Option<u32>,
    pub low: Option<u32>,
    pub net: Option<i64>,
    pub volume: u64,
    pub count: u64,
    pub agrees: bool,
    pub reported: Option<u64>,
}

fn last_of(l: Option<LastTrade>) -> Option<u32>
    ensures { result ≡ Showing.last_of l }
{
    l.map(|last| last.price)
}

fn net_of(last: Option<u32>, close: u32) -> Option<i64>
    ensures { result ≡ Showing.net_of last close }
{
    if close == 0 {
        return None;
    }
    last.map(|price| i64::from(price) - i64::from(close))
}

// Whether a J was taken and says the row's high and low; an absent figure counts as 0.
fn agrees_with(s: Option<HighLow>, high: Option<u32>, low: Option<u32>) -> bool
    ensures { result ≡ Showing.agrees_with s high low }
{
    s.is_some_and(|said| (said.high == high.unwrap_or(0)) & (said.low == low.unwrap_or(0)))
}

// The row as a reader sees it: what the row keeps, the figures, and what follows from both.
pub fn shown(r: Row, f: Figures) -> RowShown
    ensures { result ≡ Showing.shown_of r f }
{
    let last = last_of(f.last);
    let symbol = r.listing.symbol;
    RowShown {
        symbol,
        close: r.listing.close,
        last,
        high: f.high,
        low: f.low,
        net: net_of(last, r.listing.close),
        volume: f.volume,
        count: f.count,
        agrees: agrees_with(r.summary, f.high, f.low),
        reported: r.reported,
    }
}

// What a refused reading hands back.
pub fn nothing() -> RowShown
    ensures { result ≡ Showing.nothing_shown }
{
    RowShown {
        symbol: [0u8; 8],
        close: 0,
        last: None,
        high: None,
        low: None,
        net: None,
        volume: 0,
        count: 0,
        agrees: false,
        reported: None,
    }
}
