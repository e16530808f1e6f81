// The figures of a row, each behind one space, and named counts. A place is a plain number with its bound in each
// clause: as a type it would be taken apart wherever something is stored. Price, net and reported volume have a
// function each: one for all would be handed what stores a figure as a closure, and say less plainly what is stored.
// A clause `fits` says what the type says of a figure that came in.
ghost use Rattle.std.specs.Prelude.{◌≤◌, ◌∷◌, ◌++◌, length};
ghost use Rattle.decimal.specs.Decimal.{decimal};
ghost use Rattle.print.specs.Texts.{absent_text, price_text, net_text, count_text, reported_text};
ghost use Rattle.show.specs.Fits.{NetFits};
ghost use Rattle.print.specs.Fits.{PriceFits, ReportedFits};
ghost use Rattle.print.specs.Put.{Put};

use octets::run::paste;
use single::put_byte;

// A count behind its name.
pub(crate) fn put_named(out: &mut [u8], at: usize, name: &[u8], n: u64) -> usize
    requires { (at ≤ 800) × (length name.now ≤ 20) }
    ensures { Put 40 out.old at (name.now ++ decimal n) out.new result }
{
    paste(out, at, name);
    let next = at + name.len();
    next + decimal::put(out, next, n)
}

// An absent figure is a single minus.
fn put_absent(out: &mut [u8], at: usize) -> usize
    requires { at ≤ 800 }
    ensures { Put 40 out.old at (32 ∷ absent_text) out.new result }
{
    paste(out, at, b" -");
    at + 2
}

fn put_price(out: &mut [u8], at: usize, p: Option<u32>) -> usize
    requires { at ≤ 800 }
    ensures put { Put 40 out.old at (32 ∷ price_text p) out.new result }
    ensures fits { PriceFits p }
{
    match p {
        None => put_absent(out, at),
        Some(x) => {
            put_byte(out, at, b' ');
            at + 1 + decimal::put_amount(out, at + 1, x as u64)
        }
    }
}

// Last, high and low.
pub(crate) fn put_prices(
    out: &mut [u8],
    at: usize,
    last: Option<u32>,
    high: Option<u32>,
    low: Option<u32>,
) -> usize
    requires { at ≤ 500 }
    ensures put { Put 120 out.old at
        ((32 ∷ price_text last) ++ ((32 ∷ price_text high) ++ (32 ∷ price_text low))) out.new result }
    ensures fits { PriceFits last × (PriceFits high × PriceFits low) }
{
    let a = put_price(out, at, last);
    let b = put_price(out, a, high);
    put_price(out, b, low)
}

pub(crate) fn put_net(out: &mut [u8], at: usize, n: Option<i64>) -> usize
    requires { at ≤ 800 }
    ensures put { Put 40 out.old at (32 ∷ net_text n) out.new result }
    ensures fits { NetFits n }
{
    match n {
        None => put_absent(out, at),
        Some(x) => {
            put_byte(out, at, b' ');
            at + 1 + decimal::put_signed(out, at + 1, x)
        }
    }
}

fn put_reported(out: &mut [u8], at: usize, r: Option<u64>) -> usize
    requires { at ≤ 800 }
    ensures put { Put 40 out.old at (32 ∷ reported_text r) out.new result }
    ensures fits { ReportedFits r }
{
    match r {
        None => put_absent(out, at),
        Some(x) => put_named(out, at, b" ", x),
    }
}

// Volume, trades and the reported consolidated volume.
pub(crate) fn put_counts(
    out: &mut [u8],
    at: usize,
    volume: u64,
    count: u64,
    reported: Option<u64>,
) -> usize
    requires { at ≤ 500 }
    ensures put { Put 120 out.old at
        ((32 ∷ count_text volume) ++ ((32 ∷ count_text count) ++ (32 ∷ reported_text reported))) out.new result }
    ensures fits { ReportedFits reported }
{
    let a = put_named(out, at, b" ", volume);
    let b = put_named(out, a, b" ", count);
    put_reported(out, b, reported)
}
