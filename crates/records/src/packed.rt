// A record as eighty bytes: so it is filled, judged and stored, and so a program of another language passes it.
ghost use Rattle.std.specs.Prelude.{◌≡◌, ◌≤◌};
ghost use Rattle.std.proofs.lemmas.List.Edits.{sets};
ghost use Rattle.records.specs.Fits.{RecordFits};
ghost use Rattle.records.specs.Packed as W;

use crate::{
    CENTRE, CLASS, CLOSE, CONDITION, CONSOLIDATED, EVENT, HIGH, LETTER, LOW, NEW_SALE, OLD_SALE,
    PRICE, RECORD, Record, SIZE, SYMBOL, Sale, TIME,
};
use numbers::{number, put};
use octets::run::{bytes, paste};
use single::{byte, put_byte};

// Control, price, size and condition, from a place in a record on.
fn sale_at(m: &[u8], at: usize) -> Sale
    requires { at ≤ W.record_length }
    ensures { result ≡ W.sale_at m.now at }
{
    Sale {
        control: bytes(m, at),
        price: number(m, at + PRICE),
        size: number(m, at + SIZE),
        condition: bytes(m, at + CONDITION),
    }
}

// The record that eighty bytes are. Any eighty bytes are one.
pub fn record(b: &[u8; RECORD]) -> Record
    ensures { result ≡ W.record_of b.now }
{
    Record {
        letter: byte(b, LETTER),
        time: number(b, TIME),
        event: byte(b, EVENT),
        centre: byte(b, CENTRE),
        symbol: bytes(b, SYMBOL),
        class: byte(b, CLASS),
        sale: sale_at(b, OLD_SALE),
        new: sale_at(b, NEW_SALE),
        high: number(b, HIGH),
        low: number(b, LOW),
        close: number(b, CLOSE),
        consolidated: number(b, CONSOLIDATED),
    }
}

// The letter of the record that bytes are. Bytes are bytes, so that this record fits its types.
pub fn letter(b: &[u8]) -> u8
    ensures letter { result ≡ (W.record_of b.now).letter }
    ensures fits { RecordFits (W.record_of b.now) }
{
    byte(b, LETTER)
}

// Stores control, price, size and condition, from a place in a record on.
fn put_sale(out: &mut [u8], at: usize, s: Sale)
    requires { at ≤ W.record_length }
    ensures { out.new ≡ sets out.old at (W.sale_bytes s) }
{
    paste(out, at, &s.control);
    put(out, at + PRICE, s.price);
    put(out, at + SIZE, s.size);
    paste(out, at + CONDITION, &s.condition);
}

// The first 16 bytes: letter, time, event, centre, symbol, class.
fn put_front(b: &mut [u8], r: Record)
    ensures { b.new ≡ sets b.old 0 (W.front_bytes r) }
{
    put_byte(b, LETTER, r.letter);
    put(b, TIME, r.time);
    put_byte(b, EVENT, r.event);
    put_byte(b, CENTRE, r.centre);
    paste(b, SYMBOL, &r.symbol);
    put_byte(b, CLASS, r.class);
}

// The last 20 bytes: high, low, close, consolidated volume.
fn put_end(b: &mut [u8], r: Record)
    ensures { b.new ≡ sets b.old 60 (W.end_bytes r) }
{
    put(b, HIGH, r.high);
    put(b, LOW, r.low);
    put(b, CLOSE, r.close);
    put(b, CONSOLIDATED, r.consolidated);
}

// Stores a record as its eighty bytes. What stood there before is gone.
pub fn put_record(b: &mut [u8; RECORD], r: Record)
    ensures { b.new ≡ W.record_bytes r }
{
    put_front(b, r);
    put_sale(b, OLD_SALE, r.sale);
    put_sale(b, NEW_SALE, r.new);
    put_end(b, r);
}
