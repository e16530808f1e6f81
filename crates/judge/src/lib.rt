// Whether a record keeps the rules of its type, asked of its eighty bytes, so that no record is copied to be judged.
#![tactic(auto)]

ghost use Rattle.std.specs.Prelude.{◌≡◌, ◌&&◌, ◌||◌, ◌+◌, ◌≤◌, length};
ghost use Rattle.octets.specs.Run.{part, all};
ghost use Rattle.editions.specs.Editions.{reports};
ghost use Rattle.rules.specs.Rules as Rules;
ghost use Rattle.records.specs.Held as Held;
ghost use Rattle.records.specs.Packed.{record_length, record_of};
ghost use Rattle.packing.specs.Layouts.{layout_j};
ghost use Rattle.formats.specs.Formats.{layout_s, layout_c, layout_of};
ghost use Rattle.judge.specs.Judged.{kept_in, lawful_in, trade_rules, sale_rules};

use editions::{Edition, does_report};
use kinds::{C_LETTER, J_LETTER, Kind, S_LETTER, T_LETTER, X_LETTER};
use numbers::number;
use records::{
    CENTRE, CLASS, CLOSE, CONDITION, CONSOLIDATED, CONTROL_WIDTH, EVENT, HIGH, LETTER, LOW,
    NEW_SALE, OLD_SALE, PRICE, RECORD, SIZE, SYMBOL, SYMBOL_WIDTH, TIME,
};
use rules::{centre_ok, class_ok, event_ok, price_ok, size_ok, summary_price_ok, time_ok};

// The bytes of a consolidated volume.
const VOLUME: usize = 8;

// Whether n bytes are all zero. It looks at every one: that is faster than to stop at the first that is not.
fn none(b: &[u8; RECORD], at: usize, n: usize) -> bool
    requires { at + n ≤ record_length }
    ensures { result ≡ all 0 (part b.now at n) }
{
    b[at..at + n]
        .iter()
        .fold(true, |clear, x| clear & (*x == 0))
}

// Whether n bytes are a text.
fn text(b: &[u8], at: usize, n: usize) -> bool
    requires { at + n ≤ length b.now }
    ensures { result ≡ Rules.text (part b.now at n) }
{
    texts::is_text(&b[at..at + n])
}

// Whether four bytes are a condition.
fn condition(b: &[u8; RECORD], at: usize) -> bool
    requires { at + 4 ≤ record_length }
    ensures { result ≡ Rules.condition (part b.now at 4) }
{
    rules::condition_ok(b[at], b[at + 1], b[at + 2], b[at + 3])
}

// Whether a record's consolidated volume may stand in the edition: any may where the edition's messages report one,
// elsewhere only 0.
fn volume_ok(edition: Edition, b: &[u8; RECORD]) -> bool
    ensures { result ≡ (reports edition || all 0 (part b.now 72 8)) }
{
    does_report(edition) || none(b, CONSOLIDATED, VOLUME)
}

// The rules of the trade that stands from a place on, behind another test. Its price and its size are read by the
// caller, who knows the place beforehand.
fn sale_ok(edition: Edition, b: &[u8; RECORD], held: bool, at: usize, price: u32, size: u32) -> bool
    requires { at + 22 ≤ record_length }
    ensures { result
        ≡ sale_rules edition held (part b.now at 10) price size (part b.now (at + 18) 4) }
{
    held & text(b, at, CONTROL_WIDTH)
        & price_ok(price)
        & size_ok(edition, size)
        & condition(b, at + CONDITION)
}

// The rules of the fields that T, X and C have in common, with the letter.
fn trade_ok(edition: Edition, b: &[u8; RECORD], letter: u8) -> bool
    ensures { result ≡ trade_rules edition letter (record_of b.now) }
{
    let head = time_ok(number::<u32>(b, TIME))
        & (b[LETTER] == letter)
        & centre_ok(edition, b[CENTRE])
        & text(b, SYMBOL, SYMBOL_WIDTH)
        & class_ok(edition, b[CLASS]);
    let price = number::<u32>(b, OLD_SALE + PRICE);
    let size = number::<u32>(b, OLD_SALE + SIZE);
    sale_ok(edition, b, head, OLD_SALE, price, size)
}

// The rules of the fields that an S has.
fn event_kept(edition: Edition, b: &[u8; RECORD]) -> bool
    ensures { result ≡ Held.kept (layout_s edition) (record_of b.now) }
{
    time_ok(number::<u32>(b, TIME)) & (b[LETTER] == S_LETTER) & event_ok(b[EVENT])
}

// Those of a C: of what it has in common with a T, and of the new trade.
fn correction_kept(edition: Edition, b: &[u8; RECORD]) -> bool
    ensures { result ≡ Held.kept (layout_c edition) (record_of b.now) }
{
    let head = trade_ok(edition, b, C_LETTER);
    let price = number::<u32>(b, NEW_SALE + PRICE);
    let size = number::<u32>(b, NEW_SALE + SIZE);
    sale_ok(edition, b, head, NEW_SALE, price, size)
}

// Those of a J, which NLS Plus alone has.
fn summary_kept(b: &[u8; RECORD]) -> bool
    ensures { result ≡ Held.kept layout_j (record_of b.now) }
{
    time_ok(number::<u32>(b, TIME))
        & (b[LETTER] == J_LETTER)
        & text(b, SYMBOL, SYMBOL_WIDTH)
        & class_ok(Edition::NlsPlus, b[CLASS])
        & summary_price_ok(number::<u32>(b, HIGH))
        & summary_price_ok(number::<u32>(b, LOW))
        & summary_price_ok(number::<u32>(b, CLOSE))
}

// Whether a record bears a type's letter and keeps the rules of the fields that the type has, whatever stands in the
// others: for a reader, who has just put zeros there. The volume of a T, an X and a C has no rule.
#[inline(always)]
pub fn kept(edition: Edition, b: &[u8; RECORD], kind: Kind) -> bool
    ensures { result ≡ kept_in (layout_of edition kind) (record_of b.now) }
{
    match kind {
        Kind::Event => event_kept(edition, b),
        Kind::Trade => trade_ok(edition, b, T_LETTER),
        Kind::Cancel => trade_ok(edition, b, X_LETTER),
        Kind::Correction => correction_kept(edition, b),
        Kind::Summary => matches!(edition, Edition::NlsPlus) && summary_kept(b),
        Kind::Other => false,
    }
}

// Whether a record has nothing in the fields that a type lacks: what is asked of it besides `kept` for it to be lawful.
fn is_bare(edition: Edition, b: &[u8; RECORD], kind: Kind) -> bool
    ensures { (kept_in (layout_of edition kind) (record_of b.now) && result)
        ≡ lawful_in (layout_of edition kind) (record_of b.now) }
{
    match kind {
        Kind::Event => none(b, CENTRE, 74),
        Kind::Trade | Kind::Cancel => {
            none(b, EVENT, 1) & none(b, NEW_SALE, 34) & volume_ok(edition, b)
        }
        Kind::Correction => none(b, EVENT, 1) & none(b, HIGH, 12) & volume_ok(edition, b),
        Kind::Summary => none(b, EVENT, 2) & none(b, OLD_SALE, 44),
        Kind::Other => false,
    }
}

// Whether a record bears a type's letter, keeps every rule of the type and has nothing in a field that the type lacks:
// for a writer.
pub fn lawful(edition: Edition, b: &[u8; RECORD], kind: Kind) -> bool
    ensures { result ≡ lawful_in (layout_of edition kind) (record_of b.now) }
{
    kept(edition, b, kind) && is_bare(edition, b, kind)
}
