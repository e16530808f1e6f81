// The figures of a row: what is read from the live trades of a symbol, and how one more trade changes each of them.
#![tactic(auto)]

ghost use Rattle.std.specs.Prelude.{◌≡◌, cond};
ghost use Rattle.figures.specs.Figures.{raise, lower, later};

// The newest trade that may be the last.
#[derive(Clone, Copy)]
pub struct LastTrade {
    pub place: u32,
    pub price: u32,
}

// What a row reads from the live lines of its symbol. A high, a low or a last is absent if no trade has set it.
#[derive(Clone, Copy)]
pub struct Figures {
    pub volume: u64,
    pub count: u64,
    pub high: Option<u32>,
    pub low: Option<u32>,
    pub last: Option<LastTrade>,
}

// The high after a trade at a price, which may raise it only if the trade is marked. This and `lowered` are two: each is
// one line with a promise of its own.
pub fn higher(h: Option<u32>, marked: bool, p: u32) -> Option<u32>
    ensures { result ≡ cond marked (raise h p) h }
{
    if marked {
        Some(h.map_or(p, |q| q.max(p)))
    } else {
        h
    }
}

// The low after a trade at a price, which may lower it only if the trade is marked.
pub fn lowered(h: Option<u32>, marked: bool, p: u32) -> Option<u32>
    ensures { result ≡ cond marked (lower h p) h }
{
    if marked {
        Some(h.map_or(p, |q| q.min(p)))
    } else {
        h
    }
}

// The last after a trade of a place and a price. A marked trade becomes the last if its place is greater than that of
// the last so far.
pub fn latest(l: Option<LastTrade>, marked: bool, place: u32, price: u32) -> Option<LastTrade>
    ensures { result ≡ cond marked (later l place price) l }
{
    if marked && l.is_none_or(|last| last.place < place) {
        return Some(LastTrade { place, price });
    }
    l
}
