// A message of PLS 1.1 written: the fields of a record moved from its eighty bytes (`records::packed`) to their places
// in the message. What each contract says is computed from the layout of the type (`pls`). Numbers are spelt in digits
// (`number`).
#![tactic(auto)]

mod number;

ghost use Rattle.std.specs.Prelude.{◌≡◌, ◌+◌, ◌≤◌, length};
ghost use Rattle.std.proofs.lemmas.List.Edits.{sets};
ghost use Rattle.records.specs.Held.{bytes_in};
ghost use Rattle.records.specs.Packed.{record_of};
ghost use Rattle.pls.specs.Layouts.{layout_of, length_of};
ghost use Rattle.plswrite.specs.Stored.{sale_shown, head_stored, trade_stored};

use copies::{copy_byte, copy_four, copy_run};
use kinds::Kind;
use number::put_number;
use numbers::number;
use octets::run::paste;
use pls::{
    DECIMALS, DIGITS, LONGEST, M_BODY, M_CONDITION, M_LETTER, M_NEW, M_PRICE, M_SALE, M_SIZE,
    M_TIME, NAMED, PRICE_FULL, PRICE_WIDTH, SIZE_FULL, SIZE_WIDTH, TIME_FULL, TIME_WIDTH,
    length_of,
};
use records::{
    CENTRE, CONDITION, CONTROL_WIDTH, EVENT, LETTER, NEW_SALE, OLD_SALE, PRICE, SIZE, TIME,
};

// Stores a trade of a record: control, price, size, condition.
fn put_sale(out: &mut [u8], to: usize, b: &[u8], at: usize)
    requires { (to + 33 ≤ length out.old) × (at ≤ 100) }
    ensures { out.new ≡ sets out.old to (sale_shown b.now at) }
{
    copy_run(out, to, b, at, CONTROL_WIDTH);
    put_number(
        out,
        to + M_PRICE,
        PRICE_WIDTH,
        PRICE_FULL,
        DECIMALS,
        number::<u32>(b, at + PRICE),
    );
    put_number(
        out,
        to + M_SIZE,
        SIZE_WIDTH,
        SIZE_FULL,
        DIGITS,
        number::<u32>(b, at + SIZE),
    );
    copy_four(out, to + M_CONDITION, b, at + CONDITION);
}

// Stores time and letter, which stand alike in every type.
#[inline(always)]
fn put_head(out: &mut [u8], b: &[u8])
    requires { 8 ≤ length out.old }
    ensures { out.new ≡ head_stored out.old b.now }
{
    put_number(
        out,
        M_TIME,
        TIME_WIDTH,
        TIME_FULL,
        DIGITS,
        number::<u32>(b, TIME),
    );
    copy_byte(out, M_LETTER, b, LETTER);
}

// Stores what a T and an X have, and a C up to its new trade.
#[inline(always)]
fn put_trade(out: &mut [u8], b: &[u8])
    requires { 52 ≤ length out.old }
    ensures { out.new ≡ trade_stored out.old b.now }
{
    put_head(out, b);
    copy_run(out, M_BODY, b, CENTRE, NAMED);
    put_sale(out, M_SALE, b, OLD_SALE);
}

// The message of a type, stored from the eighty bytes of its record where out has room for it.
fn store_whole(out: &mut [u8], b: &[u8], k: Kind)
    requires { length_of k ≤ length out.old }
    ensures { out.new ≡ sets out.old 0 (bytes_in (layout_of k) (record_of b.now)) }
{
    match k {
        Kind::Event => {
            put_head(out, b);
            copy_byte(out, M_BODY, b, EVENT);
        }
        Kind::Trade | Kind::Cancel => put_trade(out, b),
        Kind::Correction => {
            put_trade(out, b);
            put_sale(out, M_NEW, b, NEW_SALE);
        }
        Kind::Summary | Kind::Other => {}
    }
}

// Stores the message of a type at the front of out, from the eighty bytes of a record; what is no type has none. Where
// out is too short the message is cut off.
pub fn store(out: &mut [u8], b: &[u8], k: Kind)
    ensures { out.new ≡ sets out.old 0 (bytes_in (layout_of k) (record_of b.now)) }
{
    let n = length_of(k);
    if n <= out.len() {
        store_whole(out, b, k);
        return;
    }
    let mut whole = [0u8; LONGEST];
    store_whole(&mut whole, b, k);
    paste(out, 0, &whole[0..n]);
}
