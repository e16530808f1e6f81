// A message to try: the first `length` of its bytes, printed under its type's letter.
use editions::Edition;
use numbers::Unsigned;
use single::put_byte;

#[derive(Clone, Copy)]
pub struct Tried {
    pub letter: u8,
    pub bytes: [u8; 80],
    pub length: usize,
}

impl Tried {
    // What `read` answers.
    pub fn answer(self) -> u8 {
        let n = self.length.min(self.bytes.len());
        answers::number(message::read(Edition::NlsPlus, &self.bytes[..n]).map(|_| ()))
    }

    // The message with another byte at a place.
    pub fn with_byte(mut self, at: usize, b: u8) -> Tried {
        put_byte(&mut self.bytes, at, b);
        self
    }

    // The message with another number at a place.
    pub fn with_number<T: Unsigned>(mut self, at: usize, x: T) -> Tried {
        numbers::put(&mut self.bytes, at, x);
        self
    }

    // The message cut short, or followed by zero bytes.
    pub fn with_length(self, length: usize) -> Tried {
        Tried { length, ..self }
    }
}
