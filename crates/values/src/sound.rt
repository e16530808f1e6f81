// A sound message of each type.
use crate::tried::Tried;
use records::{Record, Sale};

// What the messages say: each has the fields of its type.
const FIGURES: Record = Record {
    letter: b'T',
    time: 36000000,
    event: b'O',
    centre: b'Q',
    symbol: *b"ABCD    ",
    class: b'Q',
    sale: Sale {
        control: *b"12        ",
        price: 250000,
        size: 100,
        condition: *b"@   ",
    },
    new: Sale {
        control: *b"345       ",
        price: 250000,
        size: 100,
        condition: *b"@   ",
    },
    high: 260000,
    low: 249000,
    close: 252500,
    consolidated: 1000,
};

// A system event.
pub fn event() -> Tried {
    let opening = Record {
        letter: b'S',
        time: 34200000,
        ..FIGURES
    };
    tried(opening, 6)
}

// A trade report, or by another letter a cancel.
pub fn trade(letter: u8) -> Tried {
    tried(Record { letter, ..FIGURES }, 45)
}

// A trade correction.
pub fn correction() -> Tried {
    let letter = b'C';
    tried(Record { letter, ..FIGURES }, 67)
}

// An end of day trade summary.
pub fn summary() -> Tried {
    let evening = Record {
        letter: b'J',
        time: 72000000,
        ..FIGURES
    };
    tried(evening, 34)
}

// The message of a record, whose type's messages are so long.
fn tried(r: Record, length: usize) -> Tried {
    Tried {
        letter: r.letter,
        bytes: sample::message(r),
        length,
    }
}
