// A sound message of each type. No two bytes of a number are equal.
use records::{Record, Sale};

// What the messages say: each has the fields of its type.
pub const FIGURES: Record = Record {
    letter: b'T',
    time: 0x01020304,
    event: b'O',
    centre: b'Q',
    symbol: *b"ABCD    ",
    class: b'N',
    sale: Sale {
        control: *b"12        ",
        price: 0x11121314,
        size: 0x21222324,
        condition: *b"@   ",
    },
    new: Sale {
        control: *b"345       ",
        price: 0x51525354,
        size: 0xf1f2f3f4,
        condition: *b"@FTI",
    },
    high: 0x11121314,
    low: 0x21222324,
    close: 0x51525354,
    consolidated: 0xa1a2a3a4a5a6a7a8,
};

// The message of the type that a letter names, in N bytes.
pub fn of_type<const N: usize>(letter: u8) -> [u8; N] {
    sample::message(Record { letter, ..FIGURES })
}
