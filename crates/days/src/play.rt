// A book, each call on it, and what came of the call.
use crate::rooms::Room;
use crate::shown;
use answers::Refusal;
use book::Said;
use counters::Counters;
use editions::Edition;
use numbers::number;
use octets::run;
use records::Record;
use rows::Listing;
use std::io::{Result, Write};

// A book's counters, and the rooms that it is lent.
#[derive(Drop)]
pub struct Day<'a> {
    pub counters: Counters,
    pub rows: Room<'a>,
    pub lines: Room<'a>,
}

impl<'a> Day<'a> {
    // A listing: the symbol and the close that the code has, handed to the book.
    pub fn list<W: Write>(&mut self, out: &mut W, code: &[u8]) -> Result<()> {
        let l = Listing {
            symbol: run::bytes(code, 1),
            close: number(code, 9),
        };
        let said = book::list(self.counters, self.rows.lend(), self.lines.lent(), l);
        self.tell_said(out, said)
    }

    // A delivery: the number and the message that the code has, handed to the book. A code without a number does
    // nothing.
    pub fn deliver<W: Write>(&mut self, out: &mut W, code: &[u8]) -> Result<()> {
        let Some(message) = code.get(9..) else {
            return Ok(());
        };
        let number = number::<u64>(code, 1);
        let said = book::deliver(
            self.counters,
            self.rows.lend(),
            self.lines.lend(),
            number,
            message,
        );
        self.tell_said(out, said)
    }

    fn tell_said<W: Write>(&mut self, out: &mut W, said: Said) -> Result<()> {
        self.counters = said.counters;
        tell_answer(out, said.answer)?;
        self.state(out)
    }

    // The counters and the sums of both rooms.
    pub fn state<W: Write>(&self, out: &mut W) -> Result<()> {
        let c = self.counters;
        writeln!(
            out,
            "; {} {} {} {} {}; {} {}",
            c.wanted,
            c.phase,
            c.rows,
            c.lines,
            c.taken,
            self.rows.sum(),
            self.lines.sum()
        )
    }

    // The row of a symbol, with the answer to its reading.
    pub fn row<W: Write>(&self, out: &mut W, code: &[u8]) -> Result<()> {
        let symbol = run::bytes(code, 1);
        let said = book::row(self.counters, self.rows.lent(), self.lines.lent(), symbol);
        tell_answer(out, said.map(|_| ()))?;
        shown::tell(out, book::shown_row(said))
    }

    // The writer by itself, into the rows' room: an event at 1,000 ms.
    pub fn write<W: Write>(&mut self, out: &mut W, code: &[u8]) -> Result<()> {
        let sound = message::read(Edition::NlsPlus, b"\x00\x00\x03\xe8SO");
        let r = Record {
            event: single::byte(code, 1),
            ..message::found(sound)
        };
        tell_answer(out, message::write(Edition::NlsPlus, r, self.rows.lend()))?;
        write!(out, "; {}", self.rows.sum())
    }

    // The reader by itself, of the rows' room.
    pub fn read<W: Write>(&self, out: &mut W) -> Result<()> {
        tell_answer(
            out,
            message::read(Edition::NlsPlus, self.rows.lent()).map(|_| ()),
        )?;
        telling::words(out, b"\n")
    }
}

// The number of an answer.
fn tell_answer<W: Write>(out: &mut W, answer: std::result::Result<(), Refusal>) -> Result<()> {
    telling::marked(out, b':', u64::from(answers::number(answer)))
}
