// A sound message of each type of NLS Plus, for the programs that try the library. Each field is laid out here by its
// place, and not by the library's writer, which is what they try; that both say the same is what the promise says.
#![tactic(auto)]

ghost use Rattle.std.specs.Prelude.{◌≡◌, ◌<◌, replicate};
ghost use Rattle.std.proofs.lemmas.List.Edits.{sets};
ghost use Rattle.kinds.specs.Kinds.{kind_of};
ghost use Rattle.packing.specs.Layouts.{layout_of};
ghost use Rattle.records.specs.Held.{bytes_in};
ghost use Rattle.sample.specs.Laid.{head_laid, amounts_laid, original_laid};
ghost use Rattle.sample.specs.Laid.{event_laid, trade_laid, correction_laid, summary_laid, laid_of};

use kinds::Kind;
use numbers::put;
use octets::run::paste;
use records::{Record, Sale};
use single::put_byte;

// The message, of the type that the record's letter names, with as many of the record's fields as the type has; of what
// is no type there is none. Of N bytes: a longer message is cut, a shorter one has zero bytes behind it.
pub fn message<const N: usize>(r: Record) -> [u8; N]
    ensures { result ≡ sets (replicate N 0) 0 (bytes_in (layout_of (kind_of r.letter)) r) }
{
    let mut bytes = [0; N];
    lay_out(&mut bytes, r);
    bytes
}

// Each field of the type at its place.
fn lay_out(out: &mut [u8], r: Record)
    ensures { out.new ≡ laid_of (kind_of r.letter) out.old r }
{
    match Kind::from(r.letter) {
        Kind::Event => event(out, r),
        Kind::Trade | Kind::Cancel => trade(out, r),
        Kind::Correction => correction(out, r),
        Kind::Summary => summary(out, r),
        Kind::Other => (),
    }
}

// A system event.
fn event(out: &mut [u8], r: Record)
    ensures { out.new ≡ event_laid out.old r }
{
    head(out, r);
    put_byte(out, 5, r.event);
}

// A trade report or a cancel.
fn trade(out: &mut [u8], r: Record)
    ensures { out.new ≡ trade_laid out.old r }
{
    head(out, r);
    original(out, r);
    put(out, 37, r.consolidated);
}

// A trade correction.
fn correction(out: &mut [u8], r: Record)
    ensures { out.new ≡ correction_laid out.old r }
{
    head(out, r);
    original(out, r);
    paste(out, 37, &r.new.control);
    amounts(out, 47, r.new);
    put(out, 59, r.consolidated);
}

// An end of day trade summary.
fn summary(out: &mut [u8], r: Record)
    ensures { out.new ≡ summary_laid out.old r }
{
    head(out, r);
    paste(out, 5, &r.symbol);
    put_byte(out, 13, r.class);
    put(out, 14, r.high);
    put(out, 18, r.low);
    put(out, 22, r.close);
    put(out, 26, r.consolidated);
}

// Time and letter, which stand alike in every type.
fn head(out: &mut [u8], r: Record)
    ensures { out.new ≡ head_laid out.old r }
{
    put(out, 0, r.time);
    put_byte(out, 4, r.letter);
}

// What T, X and C have alike, from offset 5 to 36.
fn original(out: &mut [u8], r: Record)
    ensures { out.new ≡ original_laid out.old r }
{
    put_byte(out, 5, r.centre);
    paste(out, 6, &r.symbol);
    put_byte(out, 14, r.class);
    paste(out, 15, &r.sale.control);
    amounts(out, 25, r.sale);
}

// A price, a size and a condition.
fn amounts(out: &mut [u8], at: usize, s: Sale)
    requires { at < 80 }
    ensures { out.new ≡ amounts_laid out.old at s }
{
    put(out, at, s.price);
    put(out, at + 4, s.size);
    paste(out, at + 8, &s.condition);
}
