// What is refused, tried on a trade report: the record is of zeros, and the lent space stays.
use crate::back;
use crate::sound::{FIGURES, of_type};
use editions::Edition;
use records::{Record, Sale};
use std::io::{Result, Write};

// Messages that the reader refuses.
pub fn reads<W: Write>(out: &mut W) -> Result<()> {
    telling::words(out, b"T one byte short\n")?;
    back::read(out, &of_type::<44>(b'T'))?;
    let price_0 = Record {
        sale: Sale {
            price: 0,
            ..FIGURES.sale
        },
        ..FIGURES
    };
    telling::words(out, b"T with price 0\n")?;
    back::read(out, &sample::message::<45>(price_0))?;
    Ok(())
}

// Records and spaces that the writer refuses.
pub fn writes<W: Write>(out: &mut W) -> Result<()> {
    let r = report();
    let with_event = Record { event: b'O', ..r };
    let renamed = Record { letter: b'Z', ..r };
    telling::words(out, b"T into a space one byte short\n")?;
    back::write(out, r, &mut [back::MARKER; 44])?;
    telling::words(out, b"T with an event\n")?;
    back::write(out, with_event, &mut [back::MARKER; 48])?;
    telling::words(out, b"T with an event into a space one byte short\n")?;
    back::write(out, with_event, &mut [back::MARKER; 44])?;
    telling::words(out, b"T renamed Z\n")?;
    back::write(out, renamed, &mut [back::MARKER; 48])
}

// A trade report as it is read.
fn report() -> Record {
    message::found(message::read(Edition::NlsPlus, &of_type::<45>(b'T')))
}
