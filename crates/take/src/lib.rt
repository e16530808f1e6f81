// What a taken message does to the lent bytes.
#![tactic(auto)]

ghost use Rattle.std.specs.Prelude.{◌≡◌};
ghost use Rattle.take.specs.Taking as Taking;

use editions::{Edition, does_report};
use keys::{new_key, old_key};
use kinds::{Kind, is_correction, is_summary, makes_new, names_old, sets_volume};
use lines::Line;
use records::Record;

// T's line: its place is its message number.
fn made_line(n: u32, r: Record) -> Line
    ensures { result ≡ Taking.made_line n r }
{
    let symbol = r.symbol;
    let condition = r.sale.condition;
    Line {
        key: old_key(r),
        symbol,
        price: r.sale.price,
        size: r.sale.size,
        condition,
        place: n,
        time: r.time,
        live: true,
    }
}

// C's line: what is new, at the old line's place and time.
fn corrected_line(old: Line, r: Record) -> Line
    ensures { result ≡ Taking.corrected_line old r }
{
    let symbol = r.symbol;
    let condition = r.new.condition;
    Line {
        key: new_key(Kind::Correction, r),
        symbol,
        price: r.new.price,
        size: r.new.size,
        condition,
        place: old.place,
        time: old.time,
        live: true,
    }
}

// Kills line k and adds what replaces it.
fn correct(lines: &mut [u8], used: usize, r: Record, k: usize)
    ensures { lines.new ≡ Taking.corrected lines.old used r k }
{
    let old = lines::get(lines, k);
    lines::kill(lines, k);
    lines::put(lines, used, corrected_line(old, r));
}

// The lines after message n: T adds a live line, X kills line k, which it names, and C does both.
pub fn take_lines(lines: &mut [u8], used: usize, n: u32, kind: Kind, r: Record, k: usize)
    ensures { lines.new ≡ Taking.lines_by kind lines.old used n r k }
{
    if is_correction(kind) {
        correct(lines, used, r, k);
        return;
    }
    if names_old(kind) {
        lines::kill(lines, k);
        return;
    }
    if makes_new(kind) {
        lines::put(lines, used, made_line(n, r));
    }
}

// Keeps a J's high and low and its volume.
fn summarise(rows: &mut [u8], r: Record, i: usize)
    ensures { rows.new ≡ Taking.summed rows.old r i }
{
    rows::summarise(rows, i, r.high, r.low);
    rows::report(rows, i, r.consolidated);
}

// The rows after a message that reports: T, X, C and J set the reported volume of row i, which is their symbol's; J
// keeps its high and low there.
fn report(rows: &mut [u8], kind: Kind, r: Record, i: usize)
    ensures { rows.new ≡ Taking.reported_by kind rows.old r i }
{
    if is_summary(kind) {
        summarise(rows, r, i);
        return;
    }
    if sets_volume(kind) {
        rows::report(rows, i, r.consolidated);
    }
}

// The rows after a message of an edition: where its messages report no consolidated volume, they stay as they are.
pub fn take_rows(rows: &mut [u8], edition: Edition, kind: Kind, r: Record, i: usize)
    ensures { rows.new ≡ Taking.rows_by edition kind rows.old r i }
{
    if does_report(edition) {
        report(rows, kind, r, i);
    }
}
