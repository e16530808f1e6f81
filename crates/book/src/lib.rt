// The book of one day: counters by value, rows and lines in lent bytes. No call counts on its caller for a check, and a
// refused one leaves every lent byte as it was. Counters and rooms are parameters of their own and no struct: C lends
// them so, and `list_says`, `deliver_says` and `row_says` speak of the arguments of each call.
#![tactic(auto)]

ghost use Rattle.std.specs.Prelude.{◌≡◌};
ghost use Rattle.answers.specs.Answers.{answer_of};
ghost use Rattle.answers.specs.Cases.{given};
ghost use Rattle.counters.specs.Counting.{fresh_counters};
ghost use Rattle.book.specs.State.{lent, leaving, arrives};
ghost use Rattle.book.specs.Calls.{place_told, located, row_told, shown};
ghost use Rattle.book.specs.Calls.{list_answer, listed, number_cases, used_told, delivered};

use answers::Refusal;
use counters::Counters;
use editions::Edition;
use kinds::Kind;
use rows::Listing;
use rules::PRICE_TOP;
use show::RowShown;
use sound::is_sound;
use table::{Rooms, judge, judge_number};
use take::{take_lines, take_rows};

// The answer to a listing or a message, and the counters that follow from it: a refused message may use up its number.
#[derive(Clone, Copy)]
pub struct Said {
    pub answer: Result<(), Refusal>,
    pub counters: Counters,
}

// A fresh book of an edition. Starting one cannot be refused and touches no lent byte.
pub fn fresh(edition: Edition) -> Counters
    ensures { result ≡ fresh_counters edition }
{
    counters::fresh(edition)
}

// 13 to 17 of a listing.
fn judge_listing(c: Counters, rows: &[u8], lines: &[u8], l: Listing) -> Result<(), Refusal>
    ensures { result ≡ answer_of (list_answer (lent c rows.now lines.now) l) }
{
    if !is_sound(c, rows.len(), lines.len()) {
        return Err(Refusal::Unsound);
    }
    if !(texts::is_text(&l.symbol) & (l.close <= PRICE_TOP)) {
        return Err(Refusal::ListingBroken);
    }
    if c.wanted != 1 {
        return Err(Refusal::ListingLate);
    }
    if rows::find(rows, c.rows, l.symbol).is_some() {
        return Err(Refusal::ListedAlready);
    }
    if rows::limit(rows.len()) <= c.rows {
        return Err(Refusal::RowsFull);
    }
    Ok(())
}

// Lists a symbol with its close: a row added at the end.
pub fn list(c: Counters, rows: &mut [u8], lines: &[u8], l: Listing) -> Said
    ensures { leaving result rows.new lines.now
        ≡ listed (lent c rows.old lines.now) l }
{
    let answer = judge_listing(c, rows, lines, l);
    if answer.is_err() {
        return Said {
            answer,
            counters: c,
        };
    }
    rows::put(rows, c.rows, l);
    Said {
        answer,
        counters: c.add_row(),
    }
}

// Takes a message that bears the wanted number, read by the book's edition and by no other: the counters after it, or
// 4 to 12 and nothing changed.
fn take_message(
    c: Counters,
    rows: &mut [u8],
    lines: &mut [u8],
    message: &[u8],
) -> Result<Counters, Refusal>
    requires { (given (number_cases (lent c rows.old lines.old) c.wanted)).number ≡ 0 }
    ensures { leaving (used_told c result) rows.new lines.new
        ≡ delivered (lent c rows.old lines.old) (arrives c.wanted message.now) }
{
    let edition = c.start.edition;
    let q = message::read(edition, message);
    let r = message::found(q);
    let kind = Kind::from(r.letter);
    let rooms = Rooms {
        rows,
        listed: c.rows,
        lines,
        used: c.lines,
    };
    let verdict = judge(c.phase, rooms, kind, q);
    verdict.answer?;
    take_lines(lines, c.lines, c.wanted as u32, kind, r, verdict.line);
    take_rows(rows, edition, kind, r, verdict.row);
    Ok(c.take(kind, r.event))
}

// A message that bears the wanted number: taken, or the number used up.
fn use_number(c: Counters, rows: &mut [u8], lines: &mut [u8], message: &[u8]) -> Said
    requires { (given (number_cases (lent c rows.old lines.old) c.wanted)).number ≡ 0 }
    ensures { leaving result rows.new lines.new
        ≡ delivered (lent c rows.old lines.old) (arrives c.wanted message.now) }
{
    match take_message(c, rows, lines, message) {
        Ok(counters) => Said {
            answer: Ok(()),
            counters,
        },
        Err(refusal) => Said {
            answer: Err(refusal),
            counters: c.use_up(),
        },
    }
}

// 17, 1, 2 or 3 of a number that is not the wanted one.
fn judge_arrival(c: Counters, rows: &[u8], lines: &[u8], number: u64) -> Result<(), Refusal>
    ensures { result
        ≡ answer_of (given (number_cases (lent c rows.now lines.now) number)).number }
{
    if !is_sound(c, rows.len(), lines.len()) {
        return Err(Refusal::Unsound);
    }
    judge_number(c.wanted, number)
}

// Delivers a message under its number.
pub fn deliver(c: Counters, rows: &mut [u8], lines: &mut [u8], number: u64, message: &[u8]) -> Said
    ensures { leaving result rows.new lines.new
        ≡ delivered (lent c rows.old lines.old) (arrives number message.now) }
{
    let by_number = judge_arrival(c, rows, lines, number);
    if by_number.is_err() {
        return Said {
            answer: by_number,
            counters: c,
        };
    }
    use_number(c, rows, lines, message)
}

// 17, 7, or which row of the room the symbol is.
fn find_row(c: Counters, rows: &[u8], lines: &[u8], symbol: [u8; 8]) -> Result<usize, Refusal>
    ensures { place_told result ≡ located (lent c rows.now lines.now) symbol }
{
    if !is_sound(c, rows.len(), lines.len()) {
        return Err(Refusal::Unsound);
    }
    rows::find(rows, c.rows, symbol).ok_or(Refusal::NotListed)
}

// Reads the row of a symbol, or says 7 or 17.
pub fn row(c: Counters, rows: &[u8], lines: &[u8], symbol: [u8; 8]) -> Result<RowShown, Refusal>
    ensures { row_told result ≡ shown (lent c rows.now lines.now) symbol }
{
    let i = find_row(c, rows, lines, symbol)?;
    let kept = rows::get(rows, i);
    let figures = walk::walk(lines, c.lines, symbol);
    Ok(show::shown(kept, figures))
}

// The row of a reading: of zeros and absent figures where it was refused.
pub fn shown_row(said: Result<RowShown, Refusal>) -> RowShown
    ensures { result ≡ (row_told said).row }
{
    match said {
        Ok(row) => row,
        Err(_) => show::nothing(),
    }
}
