// The bytes that a line of the script stands for. A decimal number in round brackets is one byte, in angular ones four,
// in curly ones eight, the highest first; any other sign stands for itself.
use numbers::Unsigned;

// Where the next byte goes, and the number so far if a bracket is open.
#[derive(Clone, Copy, Default)]
pub struct Pen {
    pub at: usize,
    open: Option<u64>,
}

impl Pen {
    // Takes one byte of a line: what it stands for goes to the pen's place, and the pen moves on.
    pub fn sign(self, out: &mut [u8], b: u8) -> Pen {
        let x = self.open.unwrap_or(0);
        match b {
            b'\n' | b'|' => Pen::default(),
            b'(' | b'<' | b'{' => Pen {
                open: Some(0),
                ..self
            },
            b')' => self.byte(out, (x % 256) as u8),
            b'>' => self.number(out, (x % 4294967296) as u32),
            b'}' => self.number(out, x),
            _ => self.plain(out, b),
        }
    }

    // A digit of an open number, or a byte that stands for itself.
    fn plain(self, out: &mut [u8], b: u8) -> Pen {
        match self.open {
            None => self.byte(out, b),
            Some(x) => {
                let tens = x % (u64::MAX / 10 + 1) * 10;
                Pen {
                    open: Some(tens.wrapping_add(u64::from(b % 16))),
                    ..self
                }
            }
        }
    }

    // Stores a byte. No bracket is open behind it.
    fn byte(self, out: &mut [u8], b: u8) -> Pen {
        single::put_byte(out, self.at, b);
        Pen {
            at: self.at.wrapping_add(1),
            open: None,
        }
    }

    // Stores a number, whose bracket it closes.
    fn number<T: Unsigned>(self, out: &mut [u8], x: T) -> Pen {
        numbers::put(out, self.at, x);
        Pen {
            at: self.at.wrapping_add(T::WIDTH),
            open: None,
        }
    }
}
