// The layouts of NLS Plus 2.0 at work: the fields of a message moved to their places in the eighty bytes of a record
// (`records::packed`), and back. What each contract says is computed from the layout of the type
// (`specs/Layouts.antt`); the code knows of each type which runs of bytes stand in both.
#![tactic(auto)]

ghost use Rattle.std.specs.Prelude.{◌≡◌};
ghost use Rattle.std.proofs.lemmas.List.Edits.{sets};
ghost use Rattle.records.specs.Held.{filled_in, bytes_in};
ghost use Rattle.records.specs.Packed.{record_of, record_bytes};
ghost use Rattle.packing.specs.Layouts.{layout_of};
ghost use Rattle.packing.specs.Moves.{unpacked, stored};
ghost use Rattle.packing.specs.Packing.{length_of};

use copies::{copy_byte, copy_four, copy_run};
use kinds::Kind;
use records::{CENTRE, CONSOLIDATED, EVENT, HIGH, LETTER, RECORD, SYMBOL, TIME};

// The bytes of a message of each type; an X is as long as a T.
pub const S_LENGTH: usize = 6;

pub const T_LENGTH: usize = 45;

pub const C_LENGTH: usize = 67;

pub const J_LENGTH: usize = 34;

// Where a message has its time, its letter, and what stands behind the letter.
const M_TIME: usize = 0;

pub const M_LETTER: usize = 4;

const M_BODY: usize = 5;

// Fields that stand side by side, in the eighty bytes of a record and in a message: they are copied as one run.
#[derive(Clone, Copy)]
struct Run {
    packed: usize,
    message: usize,
    width: usize,
}

// What the messages of a type have behind time and letter, which stand alike in every type: a run, and another behind
// it.
#[derive(Clone, Copy)]
struct Form {
    body: Run,
    rest: Run,
}

// S: its event, and nothing behind it.
const EVENT_FORM: Form = Form {
    body: Run {
        packed: EVENT,
        message: M_BODY,
        width: 1,
    },
    rest: Run {
        packed: RECORD,
        message: S_LENGTH,
        width: 0,
    },
};

// T and X: centre to condition, and the consolidated volume.
const TRADE_FORM: Form = Form {
    body: Run {
        packed: CENTRE,
        message: M_BODY,
        width: 32,
    },
    rest: Run {
        packed: CONSOLIDATED,
        message: 37,
        width: 8,
    },
};

// C: the same with the new trade behind the original.
const CORRECTION_FORM: Form = Form {
    body: Run {
        packed: CENTRE,
        message: M_BODY,
        width: 54,
    },
    rest: Run {
        packed: CONSOLIDATED,
        message: 59,
        width: 8,
    },
};

// J: symbol and class, and the three prices with the volume.
const SUMMARY_FORM: Form = Form {
    body: Run {
        packed: SYMBOL,
        message: M_BODY,
        width: 9,
    },
    rest: Run {
        packed: HIGH,
        message: 14,
        width: 20,
    },
};

// The length of a type's messages; 0 for what is no type, as the definition `length_of` has it.
pub fn length_of(kind: Kind) -> usize
    ensures { result ≡ length_of kind }
{
    match kind {
        Kind::Event => S_LENGTH,
        Kind::Trade | Kind::Cancel => T_LENGTH,
        Kind::Correction => C_LENGTH,
        Kind::Summary => J_LENGTH,
        Kind::Other => 0,
    }
}

// Puts the fields of a message into the eighty bytes of a record, by the form of its type. Each caller names the form,
// so that the compiler knows the widths of the copies.
#[inline(always)]
fn unpack_form(b: &mut [u8], m: &[u8], form: Form)
    ensures { b.new ≡ unpacked form b.old m.now }
{
    copy_byte(b, LETTER, m, M_LETTER);
    copy_four(b, TIME, m, M_TIME);
    copy_run(b, form.body.packed, m, form.body.message, form.body.width);
    copy_run(b, form.rest.packed, m, form.rest.message, form.rest.width);
}

// The eighty bytes of the record that a message of a type fills, before any rule is asked: a field that the type lacks
// is zero, and of what is no type all are.
pub fn unpack(b: &mut [u8; RECORD], m: &[u8], kind: Kind)
    ensures { b.new ≡ record_bytes (filled_in (layout_of kind) m.now) }
{
    *b = [0u8; RECORD];
    match kind {
        Kind::Event => unpack_form(b, m, EVENT_FORM),
        Kind::Trade | Kind::Cancel => unpack_form(b, m, TRADE_FORM),
        Kind::Correction => unpack_form(b, m, CORRECTION_FORM),
        Kind::Summary => unpack_form(b, m, SUMMARY_FORM),
        Kind::Other => {}
    }
}

// The same way back: the fields of a record put into a message.
#[inline(always)]
fn store_form(out: &mut [u8], b: &[u8], form: Form)
    ensures { out.new ≡ stored form out.old b.now }
{
    copy_four(out, M_TIME, b, TIME);
    copy_byte(out, M_LETTER, b, LETTER);
    copy_run(out, form.body.message, b, form.body.packed, form.body.width);
    copy_run(out, form.rest.message, b, form.rest.packed, form.rest.width);
}

// Stores the message of a type at the front of out, from the eighty bytes of a record; what is no type has none.
pub fn store(out: &mut [u8], b: &[u8], k: Kind)
    ensures { out.new ≡ sets out.old 0 (bytes_in (layout_of k) (record_of b.now)) }
{
    match k {
        Kind::Event => store_form(out, b, EVENT_FORM),
        Kind::Trade | Kind::Cancel => store_form(out, b, TRADE_FORM),
        Kind::Correction => store_form(out, b, CORRECTION_FORM),
        Kind::Summary => store_form(out, b, SUMMARY_FORM),
        Kind::Other => {}
    }
}
