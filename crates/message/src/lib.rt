// One message of an edition of the feed, read from bytes and written to bytes. A record is filled, judged and stored as
// its eighty bytes (`records::packed`); as a struct it is made once, at the end of `read`, and taken apart once, at the
// start of `write`. Nothing here goes by the type: `formats` has each type's fields moved, and `judge` asks its rules.
#![tactic(auto)]

ghost use Rattle.std.specs.Prelude.{◌≡◌};
ghost use Rattle.records.specs.Fits.{RecordFits};
ghost use Rattle.records.specs.Packed.{record_of, record_bytes};
ghost use Rattle.message.specs.Reader.{reading_of, read_of};
ghost use Rattle.message.specs.Writer.{write_answer, write_out};

use answers::Refusal;
use editions::Edition;
use formats::{length_of, letter_place, store, unpack};
use judge::{kept, lawful};
use kinds::Kind;
use records::packed::letter;
use records::{RECORD, Record};
use single::byte;

// Reads a message into the eighty bytes of its record, for a caller who keeps records as bytes. Answers 0, 4 or 5;
// where not 0, all eighty are 0.
pub fn read_packed(edition: Edition, message: &[u8], b: &mut [u8; RECORD]) -> Result<(), Refusal>
    ensures answer { result ≡ (read_of edition message.now).answer }
    ensures bytes { b.new ≡ record_bytes (read_of edition message.now).found }
{
    let kind = Kind::from(byte(message, letter_place(edition)));
    let need = length_of(edition, kind);
    if (need == 0) | (message.len() != need) {
        *b = [0u8; RECORD];
        return Err(Refusal::NoType);
    }
    let ready = unpack(edition, b, message, kind);
    if ready & kept(edition, b, kind) {
        return Ok(());
    }
    *b = [0u8; RECORD];
    Err(Refusal::FieldBroken)
}

// Reads a message as a record, or says 4 or 5.
pub fn read(edition: Edition, message: &[u8]) -> Result<Record, Refusal>
    ensures { reading_of result ≡ read_of edition message.now }
{
    let mut b = [0u8; RECORD];
    read_packed(edition, message, &mut b)?;
    Ok(records::packed::record(&b))
}

// The record of a reading: of zeros where it was refused.
pub fn found(reading: Result<Record, Refusal>) -> Record
    ensures { result ≡ (reading_of reading).found }
{
    match reading {
        Ok(r) => r,
        Err(_) => records::packed::record(&[0; RECORD]),
    }
}

// Writes the message of the record that eighty bytes are at the front of out, and leaves the rest of out as it was.
// Answers 0, 5 or 18; where not 0, out stays. Any eighty bytes are a record that fits its types.
pub fn write_packed(edition: Edition, b: &[u8; RECORD], out: &mut [u8]) -> Result<(), Refusal>
    ensures answer { result ≡ write_answer edition (record_of b.now) out.old }
    ensures left { out.new ≡ write_out edition (record_of b.now) out.old }
    ensures fits { RecordFits (record_of b.now) }
{
    let kind = Kind::from(letter(b));
    if lawful(edition, b, kind) {
        if length_of(edition, kind) <= out.len() {
            store(edition, out, b, kind);
            return Ok(());
        }
        return Err(Refusal::NoSpace);
    }
    Err(Refusal::FieldBroken)
}

// Writes the message of a record at the front of out, and leaves the rest of out as it was. Answers 0, 5 or 18; where
// not 0, out stays.
pub fn write(edition: Edition, r: Record, out: &mut [u8]) -> Result<(), Refusal>
    ensures answer { result ≡ write_answer edition r out.old }
    ensures left { out.new ≡ write_out edition r out.old }
{
    let mut b = [0u8; RECORD];
    records::packed::put_record(&mut b, r);
    write_packed(edition, &b, out)
}
