// A message of PLS 1.1 read: its fields moved to their places in the eighty bytes of a record (`records::packed`). What
// each contract says is computed from the layout of the type (`pls`). Numbers are spelt in digits (`number`), and what
// is read says whether each of them can be stored: whether its bytes spell a number of 32 bits.
#![tactic(auto)]

mod number;

ghost use Rattle.std.specs.Prelude.{◌≡◌, ◌+◌, ◌≤◌, length};
ghost use Rattle.std.proofs.lemmas.List.Edits.{sets};
ghost use Rattle.octets.specs.Run.{part};
ghost use Rattle.numbers.specs.Number.{digits};
ghost use Rattle.digits.specs.Field.{value_of};
ghost use Rattle.records.specs.Held.{filled_in, ready_in};
ghost use Rattle.records.specs.Packed.{record_bytes};
ghost use Rattle.pls.specs.Layouts.{layout_of, length_of};
ghost use Rattle.plsread.specs.Moved.{storable, sale_moved, sale_ready, head_moved, head_ready};
ghost use Rattle.plsread.specs.Moved.{trade_moved, trade_ready};

use copies::{copy_byte, copy_four, copy_run};
use kinds::Kind;
use number::read_number;
use numbers::put;
use octets::run::fill;
use pls::{
    DECIMALS, DIGITS, LONGEST, M_BODY, M_CONDITION, M_LETTER, M_NEW, M_PRICE, M_SALE, M_SIZE,
    M_TIME, NAMED, PRICE_WIDTH, SIZE_WIDTH, TIME_WIDTH, length_of,
};
use records::{
    CENTRE, CONDITION, CONTROL_WIDTH, EVENT, LETTER, NEW_SALE, OLD_SALE, PRICE, RECORD, SIZE, TIME,
};

// One more than a record's numbers hold.
const BOUND: u64 = 4294967296;

// Stores the number that a field spells, by its lowest four bytes, and says whether that is all of it.
fn move_number(b: &mut [u8], to: usize, m: &[u8], at: usize, width: usize, least: usize) -> bool
    requires { (width ≤ 10) × (at + width ≤ length m.now) }
    ensures bytes { b.new
        ≡ sets b.old to (digits 4 (value_of least (part m.now at width))) }
    ensures ready { result ≡ storable least (part m.now at width) }
{
    let n = read_number(&m[at..at + width], least);
    put::<u32>(b, to, (n.unwrap_or(0) % BOUND) as u32);
    n.is_some_and(|x| x < BOUND)
}

// Moves a trade: control, price, size, condition. Says whether its numbers can be stored, behind another test.
fn move_sale(b: &mut [u8], to: usize, m: &[u8], at: usize, held: bool) -> bool
    requires { (to ≤ 100) × (at + 33 ≤ length m.now) }
    ensures bytes { b.new ≡ sets b.old to (sale_moved m.now at) }
    ensures ready { result ≡ sale_ready held m.now at }
{
    copy_run(b, to, m, at, CONTROL_WIDTH);
    let price = move_number(b, to + PRICE, m, at + M_PRICE, PRICE_WIDTH, DECIMALS);
    let size = move_number(b, to + SIZE, m, at + M_SIZE, SIZE_WIDTH, DIGITS);
    copy_four(b, to + CONDITION, m, at + M_CONDITION);
    held & price & size
}

// Moves letter and time, which stand alike in every type. Says whether the time can be stored.
#[inline(always)]
fn move_head(b: &mut [u8], m: &[u8]) -> bool
    requires { 8 ≤ length m.now }
    ensures bytes { b.new ≡ head_moved b.old m.now }
    ensures ready { result ≡ head_ready m.now }
{
    copy_byte(b, LETTER, m, M_LETTER);
    move_number(b, TIME, m, M_TIME, TIME_WIDTH, DIGITS)
}

// Moves what a T and an X have, and a C up to its new trade. Says whether its numbers can be stored.
#[inline(always)]
fn move_trade(b: &mut [u8], m: &[u8]) -> bool
    requires { 52 ≤ length m.now }
    ensures bytes { b.new ≡ trade_moved b.old m.now }
    ensures ready { result ≡ trade_ready m.now }
{
    let head = move_head(b, m);
    copy_run(b, CENTRE, m, M_BODY, NAMED);
    move_sale(b, OLD_SALE, m, M_SALE, head)
}

// Each type's fields, put over eighty zeros, of a message that is no shorter than its type; whether each can be stored.
fn unpack_whole(b: &mut [u8; RECORD], m: &[u8], kind: Kind) -> bool
    requires { length_of kind ≤ length m.now }
    ensures bytes { b.new ≡ record_bytes (filled_in (layout_of kind) m.now) }
    ensures ready { result ≡ ready_in (layout_of kind) m.now }
{
    *b = [0u8; RECORD];
    match kind {
        Kind::Event => {
            copy_byte(b, EVENT, m, M_BODY);
            move_head(b, m)
        }
        Kind::Trade | Kind::Cancel => move_trade(b, m),
        Kind::Correction => {
            let old = move_trade(b, m);
            move_sale(b, NEW_SALE, m, M_NEW, old)
        }
        Kind::Summary | Kind::Other => true,
    }
}

// The eighty bytes of the record that a message of a type fills, before any rule is asked: a field that the type lacks
// is zero, and of what is no type all are. Says whether each field can be stored: of a number that does not fit, the
// lowest bytes are, and of what spells no number zeros. A message that is too short goes on with zeros.
pub fn unpack(b: &mut [u8; RECORD], m: &[u8], kind: Kind) -> bool
    ensures bytes { b.new ≡ record_bytes (filled_in (layout_of kind) m.now) }
    ensures ready { result ≡ ready_in (layout_of kind) m.now }
{
    if length_of(kind) <= m.len() {
        return unpack_whole(b, m, kind);
    }
    let mut whole = [0u8; LONGEST];
    fill(&mut whole, m, 0);
    unpack_whole(b, &whole, kind)
}
