// The printed wall as bytes in a lent buffer. A text that does not fit is cut at the end of the buffer; the number that
// comes back is the whole text's length.
#![tactic(auto)]

mod columns;
mod symbols;

ghost use Rattle.std.specs.Prelude.{◌≡◌, ◌-◌, length};
ghost use Rattle.std.proofs.lemmas.List.Edits.{sets};
ghost use Rattle.print.specs.Texts.{header_text, row_text, closing_text, stop_text};

use columns::put_named;
use octets::run::paste;
use show::RowShown;
use single::put_byte;

// The line of the columns' names.
pub fn header(out: &mut [u8]) -> usize
    ensures bytes { out.new ≡ sets out.old 0 header_text }
    ensures count { result ≡ length header_text }
{
    let names = b"SYMBOL LAST HIGH LOW NET VOLUME TRADES CONSOL\n";
    paste(out, 0, names);
    names.len()
}

// The line of one row.
pub fn row(shown: RowShown, out: &mut [u8]) -> usize
    ensures bytes { out.new ≡ sets out.old 0 (row_text shown) }
    ensures count { result ≡ length (row_text shown) }
{
    let a = symbols::put_symbol(out, 0, shown.symbol);
    let b = columns::put_prices(out, a, shown.last, shown.high, shown.low);
    let c = columns::put_net(out, b, shown.net);
    let d = columns::put_counts(out, c, shown.volume, shown.count, shown.reported);
    put_byte(out, d, b'\n');
    d + 1
}

// Numbers used up and not taken.
fn refused(taken: u64, wanted: u64) -> u64
    ensures { result ≡ wanted - 1 - taken }
{
    wanted.saturating_sub(1).saturating_sub(taken)
}

// The line that closes the wall.
pub fn closing(taken: u64, wanted: u64, out: &mut [u8]) -> usize
    ensures bytes { out.new ≡ sets out.old 0 (closing_text taken wanted) }
    ensures count { result ≡ length (closing_text taken wanted) }
{
    let a = put_named(out, 0, b"TAKEN ", taken);
    let b = put_named(out, a, b" REFUSED ", refused(taken, wanted));
    let c = put_named(out, b, b" WANTED ", wanted);
    put_byte(out, c, b'\n');
    c + 1
}

// The last line of a tape that stops.
pub fn stops(offset: u64, out: &mut [u8]) -> usize
    ensures bytes { out.new ≡ sets out.old 0 (stop_text offset) }
    ensures count { result ≡ length (stop_text offset) }
{
    let a = put_named(out, 0, b"TAPE STOPS AT ", offset);
    put_byte(out, a, b'\n');
    a + 1
}
