// The library as C and Rust link it: the calls of `cabinet` under their own names, which ask and promise what those do.
// A static library is no crate that others name, so what is proved above the calls is proved of `cabinet`'s.
// `include/sorundappa.h` says the same in C.
#![tactic(auto)]

ghost use Rattle.std.specs.Prelude.{◌≡◌};
ghost use Rattle.answers.specs.Answers.{number_of};
ghost use Rattle.editions.specs.Editions.{edition_named};
ghost use Rattle.book.specs.State.{arrives};
ghost use Rattle.words.specs.Words.{fresh_words, row_words};
ghost use Rattle.records.specs.Fits.{RecordFits};
ghost use Rattle.records.specs.Packed.{record_of, record_bytes};
ghost use Rattle.sizes.specs.Sizes.{size_of};
ghost use Rattle.cabinet.specs.Crossing.{holding, listing_with, crossed, listed_from, delivered_from, shown_from};
ghost use Rattle.cabinet.specs.Crossing.{read_by, write_answer_by, write_out_by, ListTyped, DeliverTyped};

// Writes the words of a fresh book of the edition that the number names; of a number that names none, words that are no
// book's. It is lent no room, and writes no byte of one.
#[unsafe(no_mangle)]
pub extern "C" fn sorundappa_start(counters: &mut [u64; words::COUNTERS], edition: u64)
    ensures { counters.new ≡ fresh_words edition }
{
    cabinet::sorundappa_start(counters, edition);
}

// Lists a symbol with its close. Answers 0 or 13 to 17.
#[unsafe(no_mangle)]
pub extern "C" fn sorundappa_list(
    counters: &mut [u64; words::COUNTERS],
    rows: &mut [u8],
    lines: &[u8],
    symbol: &[u8; 8],
    close: u32,
) -> u8
    ensures left { crossed result (holding counters.new rows.new lines.now)
        ≡ listed_from (holding counters.old rows.old lines.now)
        (listing_with symbol.now close) }
    ensures types { ListTyped counters.old (listing_with symbol.now close) }
{
    cabinet::sorundappa_list(counters, rows, lines, symbol, close)
}

// Delivers a message under its number. Answers 0 to 12 or 17.
#[unsafe(no_mangle)]
pub extern "C" fn sorundappa_deliver(
    counters: &mut [u64; words::COUNTERS],
    rows: &mut [u8],
    lines: &mut [u8],
    number: u64,
    message: &[u8],
) -> u8
    ensures left { crossed result (holding counters.new rows.new lines.new)
        ≡ delivered_from (holding counters.old rows.old lines.old)
        (arrives number message.now) }
    ensures types { DeliverTyped counters.old lines.old message.now }
{
    cabinet::sorundappa_deliver(counters, rows, lines, number, message)
}

// Reads the row of a symbol. Answers 0, 7 or 17; where not 0, every word is 0.
#[unsafe(no_mangle)]
pub extern "C" fn sorundappa_row(
    counters: &[u64; words::COUNTERS],
    rows: &[u8],
    lines: &[u8],
    symbol: &[u8; 8],
    row: &mut [u64; words::ROW],
) -> u8
    ensures answer { result
        ≡ number_of (shown_from (holding counters.now rows.now lines.now)
        symbol.now).answer }
    ensures row { row.new
        ≡ row_words (shown_from (holding counters.now rows.now lines.now)
        symbol.now).row }
{
    cabinet::sorundappa_row(counters, rows, lines, symbol, row)
}

// Reads a message alone, by an edition. Answers 0, 4 or 5; where not 0, every byte of the record is 0.
#[unsafe(no_mangle)]
pub extern "C" fn sorundappa_read(
    edition: u64,
    message: &[u8],
    out: &mut [u8; records::RECORD],
) -> u8
    ensures answer { result ≡ number_of (read_by (edition_named edition) message.now).answer }
    ensures bytes { out.new
        ≡ record_bytes (read_by (edition_named edition) message.now).found }
{
    cabinet::sorundappa_read(edition, message, out)
}

// Writes a record's message, by an edition. Answers 0, 5 or 18; where not 0, out stays as it was.
#[unsafe(no_mangle)]
pub extern "C" fn sorundappa_write(
    edition: u64,
    bytes: &[u8; records::RECORD],
    out: &mut [u8],
) -> u8
    ensures answer { result
        ≡ number_of (write_answer_by (edition_named edition) (record_of bytes.now) out.old) }
    ensures out { out.new
        ≡ write_out_by (edition_named edition) (record_of bytes.now) out.old }
    ensures types { RecordFits (record_of bytes.now) }
{
    cabinet::sorundappa_write(edition, bytes, out)
}

// A size that a caller needs, by its place in the list of sizes; 0 past the end of the list.
#[unsafe(no_mangle)]
pub extern "C" fn sorundappa_size(which: u64) -> u64
    ensures { result ≡ size_of which }
{
    cabinet::sorundappa_size(which)
}
