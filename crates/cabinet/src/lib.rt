// The library that C and Rust link, by way of `cabinet_c`. Every function takes any counters, any bytes and any slices,
// and asks nothing of its caller. All but `sorundappa_start`, which answers nothing, and `sorundappa_size`, which tells
// a size, answer a number of document 01's table. Words that are no book's, because they name no edition, are answered
// 17 by every call on a book, and nothing changes. A clause `types` says what the types of the parameters say of what
// came in, for whoever reasons about calls.
#![tactic(auto)]

ghost use Rattle.std.specs.Prelude.{◌≡◌};
ghost use Rattle.answers.specs.Answers.{number_of, answer_of};
ghost use Rattle.editions.specs.Editions.{edition_named};
ghost use Rattle.book.specs.State.{arrives};
ghost use Rattle.book.specs.Calls.{row_told};
ghost use Rattle.words.specs.Words.{fresh_words, row_words};
ghost use Rattle.rows.specs.Changed.{ListingFits};
ghost use Rattle.records.specs.Fits.{RecordFits};
ghost use Rattle.records.specs.Packed.{record_of, record_bytes};
ghost use Rattle.sizes.specs.Sizes.{size_of};
ghost use Rattle.cabinet.specs.Crossing.{holding, listing_with, crossed, listed_from, delivered_from, shown_from};
ghost use Rattle.cabinet.specs.Crossing.{read_by, write_answer_by, write_out_by, ListTyped, DeliverTyped};

use answers::Refusal;
use editions::edition_of;
use records::packed::letter;
use rows::Listing;
use show::RowShown;

// The number of an answer in the table: what every call but the first and the last tells.
fn told(a: Result<(), Refusal>) -> u8
    ensures { result ≡ number_of a }
{
    answers::number(a)
}

// A symbol and its close as a listing: eight bytes, and a number of four.
fn listing(symbol: [u8; 8], close: u32) -> Listing
    ensures made { result ≡ listing_with symbol close }
    ensures fits { ListingFits (listing_with symbol close) }
{
    Listing { symbol, close }
}

// Writes the words of a fresh book of the edition that the number names; of a number that names none, words that are no
// book's. It is lent no room, and writes no byte of one.
pub fn sorundappa_start(counters: &mut [u64; words::COUNTERS], edition: u64)
    ensures { counters.new ≡ fresh_words edition }
{
    words::put_fresh(counters, edition);
}

// Lists a symbol with its close. Answers 0 or 13 to 17.
pub fn sorundappa_list(
    counters: &mut [u64; words::COUNTERS],
    rows: &mut [u8],
    lines: &[u8],
    symbol: &[u8; 8],
    close: u32,
) -> u8
    ensures left { crossed result (holding counters.new rows.new lines.now)
        ≡ listed_from (holding counters.old rows.old lines.now)
        (listing_with symbol.now close) }
    ensures types { ListTyped counters.old (listing_with symbol.now close) }
{
    let held = *counters;
    let name = *symbol;
    let l = listing(name, close);
    match words::counters(held) {
        None => told(Err(Refusal::Unsound)),
        Some(before) => {
            let listed = book::list(before, rows, lines, l);
            words::put_counters(counters, listed.counters);
            told(listed.answer)
        }
    }
}

// Delivers a message under its number. Answers 0 to 12 or 17.
pub fn sorundappa_deliver(
    counters: &mut [u64; words::COUNTERS],
    rows: &mut [u8],
    lines: &mut [u8],
    number: u64,
    message: &[u8],
) -> u8
    ensures left { crossed result (holding counters.new rows.new lines.new)
        ≡ delivered_from (holding counters.old rows.old lines.old)
        (arrives number message.now) }
    ensures types { DeliverTyped counters.old lines.old message.now }
{
    let held = *counters;
    match words::counters(held) {
        None => told(Err(Refusal::Unsound)), // and no number is used up
        Some(before) => {
            let delivered = book::deliver(before, rows, lines, number, message);
            words::put_counters(counters, delivered.counters);
            told(delivered.answer)
        }
    }
}

// The words of a row that was read, and the number of the answer to its reading; where that is not 0, every word is 0.
fn row_words(read: Result<RowShown, Refusal>, row: &mut [u64; words::ROW]) -> u8
    ensures answer { result ≡ number_of (row_told read).answer }
    ensures row { row.new ≡ row_words (row_told read).row }
{
    words::put_row(row, book::shown_row(read));
    match read {
        Ok(_) => told(Ok(())),
        Err(refusal) => told(Err(refusal)),
    }
}

// Reads the row of a symbol. Answers 0, 7 or 17; where not 0, every word is 0.
pub fn sorundappa_row(
    counters: &[u64; words::COUNTERS],
    rows: &[u8],
    lines: &[u8],
    symbol: &[u8; 8],
    row: &mut [u64; words::ROW],
) -> u8
    ensures answer { result
        ≡ number_of (shown_from (holding counters.now rows.now lines.now)
        symbol.now).answer }
    ensures row { row.new
        ≡ row_words (shown_from (holding counters.now rows.now lines.now)
        symbol.now).row }
{
    let held = *counters;
    let name = *symbol;
    match words::counters(held) {
        None => {
            *row = [0; words::ROW];
            told(Err(Refusal::Unsound))
        }
        Some(c) => row_words(book::row(c, rows, lines, name), row),
    }
}

// Reads a message alone, by an edition. Answers 0, 4 or 5; where not 0, every byte of the record is 0.
pub fn sorundappa_read(edition: u64, message: &[u8], out: &mut [u8; records::RECORD]) -> u8
    ensures answer { result ≡ number_of (read_by (edition_named edition) message.now).answer }
    ensures bytes { out.new
        ≡ record_bytes (read_by (edition_named edition) message.now).found }
{
    match edition_of(edition) {
        None => {
            *out = [0u8; records::RECORD];
            told(Err(Refusal::NoType))
        }
        Some(e) => told(message::read_packed(e, message, out)),
    }
}

// The answer to a record that is to be written by no edition. Any bytes are a record that fits its types, as `letter`
// says of those that it is lent; what the letter is does not matter.
fn unwritten(b: &[u8]) -> Result<(), Refusal>
    ensures answer { result ≡ answer_of 5 }
    ensures fits { RecordFits (record_of b.now) }
{
    let any = letter(b);
    Err(Refusal::FieldBroken)
}

// Writes a record's message, by an edition. Answers 0, 5 or 18; where not 0, out stays as it was.
pub fn sorundappa_write(edition: u64, bytes: &[u8; records::RECORD], out: &mut [u8]) -> u8
    ensures answer { result
        ≡ number_of (write_answer_by (edition_named edition) (record_of bytes.now) out.old) }
    ensures out { out.new
        ≡ write_out_by (edition_named edition) (record_of bytes.now) out.old }
    ensures types { RecordFits (record_of bytes.now) }
{
    match edition_of(edition) {
        None => told(unwritten(bytes)),
        Some(e) => told(message::write_packed(e, bytes, out)),
    }
}

// A size that a caller needs, by its place in the list of sizes; 0 past the end of the list.
pub fn sorundappa_size(which: u64) -> u64
    ensures { result ≡ size_of which }
{
    sizes::size(which)
}
