// Counters and a row as words of 64 bits, as a program of another language passes them. Which word is which is said in
// `specs/Words.antt`; the numbers here are held to it.
#![tactic(auto)]

ghost use Rattle.std.specs.Prelude.{◌≡◌, length};
ghost use Rattle.show.specs.Fits.{NetFits};
ghost use Rattle.words.specs.Words as W;

use counters::{Counters, Start};
use editions::{Edition, edition_of};
use numbers::number;
use show::RowShown;

// How many words the counters are, and how many a row is.
pub const COUNTERS: usize = 6;

pub const ROW: usize = 15;

// Which of the counters' words is the edition's number.
const EDITION: usize = 5;

// What the words are. There are as many words as the counters have.
pub fn counters(w: [u64; COUNTERS]) -> Option<Counters>
    ensures counters { result ≡ W.counters_of w }
    ensures count { length w ≡ W.counter_count }
{
    let edition = edition_of(w[EDITION])?;
    Some(Counters {
        start: Start { edition },
        wanted: w[0],
        phase: w[1],
        rows: w[2] as usize,
        lines: w[3] as usize,
        taken: w[4],
    })
}

// The words of counters.
pub fn put_counters(w: &mut [u64; COUNTERS], c: Counters)
    ensures { w.new ≡ W.counter_words c }
{
    let n = u64::from(c.start.edition);
    *w = [c.wanted, c.phase, c.rows as u64, c.lines as u64, c.taken, n];
}

// The words of a fresh book with a number in the edition's place, be it an edition's or not.
pub fn put_fresh(w: &mut [u64; COUNTERS], edition: u64)
    ensures { w.new ≡ W.fresh_words edition }
{
    put_counters(w, counters::fresh(Edition::NlsPlus));
    w[EDITION] = edition;
}

// A figure that may be absent is two words: a mark, 1 where it is there, and the figure, 0 where it is not.
fn mark<T>(figure: &Option<T>) -> u64
    ensures { result ≡ W.figure_mark figure.now }
{
    u64::from(figure.is_some())
}

fn price_word(price: Option<u32>) -> u64
    ensures { result ≡ W.figure_word price }
{
    price.map_or(0, u64::from)
}

// A signed number's 64 bits: below zero, 2 to the 64 less its size.
fn signed_word(x: i64) -> u64
    ensures { result ≡ W.signed_word x }
{
    x.cast_unsigned()
}

// The clause `fits` says what the type says of the net that came in.
fn net_word(net: Option<i64>) -> u64
    ensures word { result ≡ W.net_word net }
    ensures fits { NetFits net }
{
    match net {
        Some(x) => signed_word(x),
        None => 0,
    }
}

// The words of a row.
pub fn put_row(w: &mut [u64; ROW], r: RowShown)
    ensures { w.new ≡ W.row_words r }
{
    *w = [
        number::<u64>(&r.symbol, 0),
        u64::from(r.close),
        mark(&r.last),
        price_word(r.last),
        mark(&r.high),
        price_word(r.high),
        mark(&r.low),
        price_word(r.low),
        mark(&r.net),
        net_word(r.net),
        r.volume,
        r.count,
        u64::from(r.agrees),
        mark(&r.reported),
        r.reported.unwrap_or(0),
    ];
}
