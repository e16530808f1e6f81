// The field rules of document 01 and of the editions, each asked of one value. Which layout asks which rule of which
// field is said by the tables in `packing` and `pls`. The rule of a symbol or a control is `texts::is_text`; a
// consolidated volume has none.
#![tactic(auto)]

ghost use Rattle.std.specs.Prelude.{◌≡◌, [], ◌∷◌};
ghost use Rattle.editions.specs.declared.Edition.TheVariants.{NlsPlus, Pls};
ghost use Rattle.layout.specs.Forms.{inside};
ghost use Rattle.rules.specs.Rules as Rules;

use conditions::condition_marks;
use editions::Edition;
use phases::phase_of;

// The highest price, in ten-thousandths.
pub const PRICE_TOP: u32 = 2000000000;

// Whether a time is within the day. It may go backwards from message to message: nobody asks that here.
pub fn time_ok(t: u32) -> bool
    ensures { result ≡ inside Rules.time t }
{
    t <= 86399999
}

// Whether a byte is one of the six events.
pub fn event_ok(e: u8) -> bool
    ensures { result ≡ Rules.event e }
{
    phase_of(e) != 0
}

// Whether a byte is one of NLS Plus's centres.
fn plus_centre(c: u8) -> bool
    ensures { result ≡ Rules.centre NlsPlus c }
{
    matches!(c, b'Q' | b'L' | b'B' | b'X')
}

// Whether a byte is one of an edition's centres.
pub fn centre_ok(edition: Edition, c: u8) -> bool
    ensures { result ≡ Rules.centre edition c }
{
    match edition {
        Edition::NlsPlus => plus_centre(c),
        Edition::Pls => c == b'X',
    }
}

// Whether a byte is one of the classes that every edition has.
fn shared_class(c: u8) -> bool
    ensures { result ≡ Rules.class Pls c }
{
    matches!(c, b'Q' | b'N' | b'A' | b'P' | b'Z')
}

// Whether a byte is one of an edition's classes.
pub fn class_ok(edition: Edition, c: u8) -> bool
    ensures { result ≡ Rules.class edition c }
{
    match edition {
        Edition::NlsPlus => shared_class(c) | (c == b'B'),
        Edition::Pls => shared_class(c),
    }
}

// Whether a price may stand in a trade: 0 may not.
pub fn price_ok(p: u32) -> bool
    ensures { result ≡ inside Rules.trade_price p }
{
    (1..=PRICE_TOP).contains(&p)
}

// Whether a price may stand in a summary: there 0 says that there is none.
pub fn summary_price_ok(price: u32) -> bool
    ensures { result ≡ inside Rules.summary_price price }
{
    price <= PRICE_TOP
}

// Whether a size may stand in a trade of an edition: any but 0 that four bytes hold, or nine digits.
pub fn size_ok(edition: Edition, s: u32) -> bool
    ensures { result ≡ inside (Rules.size edition) s }
{
    match edition {
        Edition::NlsPlus => (1..=4294967295).contains(&s),
        Edition::Pls => (1..=999999999).contains(&s),
    }
}

// Whether four bytes are a condition: one code from each row of the sheet, in the order of the rows.
pub fn condition_ok(a: u8, b: u8, c: u8, d: u8) -> bool
    ensures { result ≡ Rules.condition (a ∷ b ∷ c ∷ d ∷ []) }
{
    condition_marks([a, b, c, d]).on_sheet
}
