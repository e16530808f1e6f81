// One entry of a tape: what stands at a place, and what the book is told of it.
ghost use Rattle.std.specs.Prelude.{◌≡◌, ◌+◌, ◌≤◌, length, drop};
ghost use Rattle.book.specs.State.{lent};
ghost use Rattle.tape.specs.Entries.{kind_bytes, number_bytes, body_length, head_of};
ghost use Rattle.tape.specs.Entries.{Lists, listing_in, delivery, entry_of};
ghost use Rattle.tape.specs.Playing.{acted};

use crate::Stop;
use counters::Counters;
use kinds::Kind;
use numbers::number;
use octets::run;
use packing::length_of;
use rows::Listing;
use single::byte;

// How many bytes the kind, the symbol and the close of a listing, and the number of a message have.
const KIND: usize = 1;

const SYMBOL: usize = 8;

const CLOSE: usize = 4;

const NUMBER: usize = 4;

// The kind of a listing.
const LISTING: u8 = b'L';

// Where the close and the message stand in their entries; the symbol and the number stand behind the kind.
const CLOSE_AT: usize = KIND + SYMBOL;

const MESSAGE_AT: usize = KIND + NUMBER;

// How many bytes follow a kind byte: symbol and close, or number and message; 0 where the byte is no kind, as
// the tape's theorems have it.
fn body_length(letter: u8) -> usize
    ensures { result ≡ body_length letter }
{
    if letter == LISTING {
        return SYMBOL + CLOSE;
    }
    let n = length_of(Kind::from(letter));
    if n == 0 {
        return 0;
    }
    NUMBER + n
}

// How many bytes the whole entry has that stands at a place, or why none does.
pub(crate) fn head_at(part: &[u8], at: usize) -> Result<usize, Stop>
    ensures { result ≡ head_of (drop at part.now) }
{
    if part.len() <= at {
        return Err(Stop::Ended);
    }
    let n = body_length(part[at]);
    if n == 0 {
        return Err(Stop::NoKind);
    }
    if n < part.len() - at {
        Ok(n + 1)
    } else {
        Err(Stop::CutShort)
    }
}

// Lists the symbol of an entry with its close.
fn list_entry(c: Counters, rows: &mut [u8], lines: &[u8], bytes: &[u8]) -> Counters
    ensures { lent result rows.new lines.now
        ≡ acted (lent c rows.old lines.now) (Lists (listing_in bytes.now)) }
{
    let listing = Listing {
        symbol: run::bytes(bytes, KIND),
        close: number(bytes, CLOSE_AT),
    };
    book::list(c, rows, lines, listing).counters
}

// Delivers the message of an entry as it lies, under its number.
fn deliver_entry(c: Counters, rows: &mut [u8], lines: &mut [u8], bytes: &[u8]) -> Counters
    requires { kind_bytes + number_bytes ≤ length bytes.now }
    ensures { lent result rows.new lines.new
        ≡ acted (lent c rows.old lines.old) (delivery bytes.now) }
{
    let number = u64::from(number::<u32>(bytes, KIND));
    book::deliver(c, rows, lines, number, &bytes[MESSAGE_AT..]).counters
}

// Plays one entry; these are all of its bytes.
pub(crate) fn play_entry(c: Counters, rows: &mut [u8], lines: &mut [u8], bytes: &[u8]) -> Counters
    requires { kind_bytes + number_bytes ≤ length bytes.now }
    ensures { lent result rows.new lines.new
        ≡ acted (lent c rows.old lines.old) (entry_of bytes.now) }
{
    if byte(bytes, 0) == LISTING {
        return list_entry(c, rows, lines, bytes);
    }
    deliver_entry(c, rows, lines, bytes)
}
