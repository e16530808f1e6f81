// The layouts of PLS 1.1 (`specs/Layouts.antt`), and their numbers: how long a message is, and where its fields stand.
// `plsread` moves the fields of a message into a record by them, and `plswrite` those of a record into a message.
#![tactic(auto)]

ghost use Rattle.std.specs.Prelude.{◌≡◌};
ghost use Rattle.pls.specs.Layouts.{length_of};

use kinds::Kind;

// The bytes of a message of each type; an X is as long as a T.
pub const S_LENGTH: usize = 10;

pub const T_LENGTH: usize = 52;

pub const C_LENGTH: usize = 85;

// The longest of them.
pub const LONGEST: usize = C_LENGTH;

// Where a message has its time, its letter, what stands behind the letter, the trade of a T and the new one of a C.
pub const M_TIME: usize = 0;

pub const M_LETTER: usize = 8;

pub const M_BODY: usize = 9;

pub const M_SALE: usize = 19;

pub const M_NEW: usize = 52;

// Centre, symbol and class of T, X and C.
pub const NAMED: usize = 10;

// Where a trade has its price, its size and its condition, from its control on.
pub const M_PRICE: usize = 10;

pub const M_SIZE: usize = 20;

pub const M_CONDITION: usize = 29;

// How wide the numbers are, and how many digits they have at least: a time and a size one, a price four. The last four
// digits of a price are its decimals, and the number that all its digits spell counts ten-thousandths.
pub const TIME_WIDTH: usize = 8;

pub const PRICE_WIDTH: usize = 10;

pub const SIZE_WIDTH: usize = 9;

// The least number of as many digits as a field has places.
pub const TIME_FULL: u32 = 10000000;

pub const PRICE_FULL: u32 = 1000000000;

pub const SIZE_FULL: u32 = 100000000;

pub const DIGITS: usize = 1;

pub const DECIMALS: usize = 4;

// The length of a type's messages; 0 for what is no type of this edition, as the definition `length_of` has it.
pub fn length_of(kind: Kind) -> usize
    ensures { result ≡ length_of kind }
{
    match kind {
        Kind::Event => S_LENGTH,
        Kind::Trade | Kind::Cancel => T_LENGTH,
        Kind::Correction => C_LENGTH,
        Kind::Summary | Kind::Other => 0,
    }
}
