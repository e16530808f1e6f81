// The walk of one symbol's live lines into its figures.
#![tactic(auto)]

ghost use Rattle.std.specs.Prelude.{◌≡◌, ◌&&◌, ◌+◌, ◌≤◌, ◌<◌, ◌^◌, eqb, get_or};
ghost use Rattle.octets.specs.Run.{part};
ghost use Rattle.lines.specs.Cell.{at_symbol, at_live};
ghost use Rattle.lines.specs.Lines.{used_lines};
ghost use Rattle.eights.specs.Low.{low};
ghost use Rattle.walk.specs.Walking.{dealt, figures_of};

use cells::Cell;
use conditions::condition_marks;
use figures::{Figures, higher, latest, lowered};
use lines::{LIVE, Line, SYMBOL};

// The figures with the trade of one more line.
#[tactic(auto, unfolding(figures::specs::Figures::sold))]
fn with_line(t: Figures, l: Line) -> Figures
    requires room_left { (t.volume + 2 ^ 32 ≤ 2 ^ 64) × (t.count + 1 < 2 ^ 64) }
    ensures value { result ≡ dealt t l }
    ensures one_more { (result.volume < t.volume + 2 ^ 32) × (result.count ≤ t.count + 1) }
{
    let marks = condition_marks(l.condition);
    Figures {
        volume: t.volume + u64::from(l.size),
        count: t.count + 1,
        high: higher(t.high, marks.high_low, l.price),
        low: lowered(t.low, marks.high_low, l.price),
        last: latest(t.last, marks.last, l.place, l.price),
    }
}

// Whether the line of a cell is live and of the symbol, which is given as the number of its eight bytes.
fn is_counted(cell: &[u8], symbol: u64) -> bool
    ensures { result ≡ (eqb (get_or cell.now at_live 0) 1 && eqb (low (part cell.now at_symbol 8)) symbol) }
{
    single::byte(cell, LIVE) == 1 && eights::low8(cell, SYMBOL) == symbol
}

// The figures of a symbol, from its live lines among those used.
pub fn walk(lines: &[u8], used: usize, symbol: [u8; 8]) -> Figures
    ensures { result ≡ figures_of symbol (used_lines lines.now used) }
{
    let n = bounds::lesser(used, lines::limit(lines.len()));
    let name = eights::low8(&symbol, 0);
    let mut t = Figures {
        volume: 0,
        count: 0,
        high: None,
        low: None,
        last: None,
    };
    for i in 0..n {
        let cell = cells::cut::<Line>(lines, i);
        if is_counted(cell, name) {
            t = with_line(t, Line::read(cell));
        }
    }
    t
}
