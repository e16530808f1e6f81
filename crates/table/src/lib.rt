// The answer table of a message, worked: reads, changes nothing.
#![tactic(auto)]

ghost use Rattle.std.specs.Prelude.{◌≡◌};
ghost use Rattle.answers.specs.Answers.{answer_of};
ghost use Rattle.answers.specs.Cases.{given};
ghost use Rattle.rows.specs.Rows.{used_sheet};
ghost use Rattle.table.specs.Table.{number_table, ledger_in, basis_in};
ghost use Rattle.table.specs.Working as Working;
ghost use Rattle.message.specs.Reader.{reading_of};

use answers::Refusal;
use counters::LAST_NUMBER;
use keys::{is_match, new_key, old_key};
use kinds::{Kind, is_event, makes_new, names_old};
use phases::is_due;
use records::Record;

// The rooms that a message is judged by, and how many rows and lines of them are in use.
#[derive(Clone, Copy)]
pub struct Rooms<'a> {
    pub rows: &'a [u8],
    pub listed: usize,
    pub lines: &'a [u8],
    pub used: usize,
}

// What the table gives, and what acting on it needs: the row of the message's symbol and the line that it names; 0
// where there is none. Both stand beside the answer and not in its place, since they are told with a refusal too, as far
// as the branches came (`Working.listed_by`).
#[derive(Clone, Copy)]
pub struct Verdict {
    pub answer: Result<(), Refusal>,
    pub row: usize,
    pub line: usize,
}

// 1, 2 or 3 of a message's number; none of them for the wanted one.
pub fn judge_number(wanted: u64, number: u64) -> Result<(), Refusal>
    ensures { result ≡ answer_of (given (number_table wanted number)).number }
{
    if (number == 0) | (LAST_NUMBER < number) {
        return Err(Refusal::NumberOutside);
    }
    if number < wanted {
        return Err(Refusal::NumberBelow);
    }
    if wanted < number {
        return Err(Refusal::NumberAbove);
    }
    Ok(())
}

// An answer that needs no row and no line.
fn plainly(answer: Result<(), Refusal>) -> Verdict
    ensures { result ≡ Working.plainly answer }
{
    Verdict {
        answer,
        row: 0,
        line: 0,
    }
}

// 8, 9, 10, or the line that X and C name.
fn judge_named(rooms: Rooms, r: Record) -> Verdict
    ensures { result ≡ Working.named_by (ledger_in rooms.entry.lines.now rooms.entry.used) r }
{
    let Some(line) = lines::find(rooms.lines, rooms.used, old_key(r)) else {
        return plainly(Err(Refusal::NoLine));
    };
    let l = lines::get(rooms.lines, line);
    if !l.live {
        return plainly(Err(Refusal::LineDead));
    }
    if !is_match(r, l) {
        return plainly(Err(Refusal::LineDiffers));
    }
    Verdict {
        answer: Ok(()),
        row: 0,
        line,
    }
}

// 11 or 12 of a line that T and C make. Another type makes none.
fn judge_new(rooms: Rooms, kind: Kind, r: Record) -> Result<(), Refusal>
    ensures { result ≡ answer_of (Working.made_by (ledger_in rooms.entry.lines.now rooms.entry.used) kind r) }
{
    if !makes_new(kind) {
        return Ok(());
    }
    if lines::find(rooms.lines, rooms.used, new_key(kind, r)).is_some() {
        return Err(Refusal::KeyUsed);
    }
    if lines::limit(rooms.lines.len()) <= rooms.used {
        return Err(Refusal::LinesFull);
    }
    Ok(())
}

// 8 to 12, or the line that X and C name.
fn judge_trade(rooms: Rooms, kind: Kind, r: Record) -> Verdict
    ensures { result
        ≡ Working.trade_by (ledger_in rooms.entry.lines.now rooms.entry.used) kind r }
{
    if !names_old(kind) {
        return plainly(judge_new(rooms, kind, r));
    }
    let named = judge_named(rooms, r);
    if named.answer.is_err() {
        return named;
    }
    Verdict {
        answer: judge_new(rooms, kind, r),
        row: 0,
        line: named.line,
    }
}

// 7 to 12, or the row of the message's symbol and the line that it names.
fn judge_listed(rooms: Rooms, kind: Kind, r: Record) -> Verdict
    ensures { result ≡ Working.listed_by
        (used_sheet rooms.entry.rows.now rooms.entry.listed)
        (ledger_in rooms.entry.lines.now rooms.entry.used) kind r }
{
    let Some(row) = rows::find(rooms.rows, rooms.listed, r.symbol) else {
        return plainly(Err(Refusal::NotListed));
    };
    let traded = judge_trade(rooms, kind, r);
    Verdict {
        answer: traded.answer,
        row,
        line: traded.line,
    }
}

// What the table gives a reading of a type: what refused it, or 6 to 12, or what acting on it needs.
pub fn judge(phase: u64, rooms: Rooms, kind: Kind, q: Result<Record, Refusal>) -> Verdict
    ensures { result ≡ Working.judged_by
        (basis_in phase rooms.entry.rows.now rooms.entry.listed
        rooms.entry.lines.now rooms.entry.used) kind (reading_of q) }
{
    let r = match q {
        Ok(r) => r,
        Err(refusal) => return plainly(Err(refusal)),
    };
    if !is_due(phase, kind, r.event) {
        return plainly(Err(Refusal::NotDue));
    }
    if is_event(kind) {
        return plainly(Ok(()));
    }
    judge_listed(rooms, kind, r)
}
