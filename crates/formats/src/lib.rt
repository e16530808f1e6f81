// The layouts at work, by the edition: each function here asks the edition once, and calls `packing` for NLS Plus or,
// for PLS, `pls`, `plsread` and `plswrite`.
#![tactic(auto)]

ghost use Rattle.std.specs.Prelude.{◌≡◌};
ghost use Rattle.std.proofs.lemmas.List.Edits.{sets};
ghost use Rattle.records.specs.Held.{filled_in, ready_in, bytes_in};
ghost use Rattle.records.specs.Packed.{record_of, record_bytes};
ghost use Rattle.formats.specs.Formats.{letter_place, layout_of, length_of};

use editions::Edition;
use kinds::Kind;
use records::RECORD;

// Where an edition's messages have their letter.
pub fn letter_place(edition: Edition) -> usize
    ensures { result ≡ letter_place edition }
{
    match edition {
        Edition::NlsPlus => packing::M_LETTER,
        Edition::Pls => pls::M_LETTER,
    }
}

// The length of a type's messages; 0 for what is no type of the edition, as the definition `length_of` has it.
pub fn length_of(edition: Edition, kind: Kind) -> usize
    ensures { result ≡ length_of edition kind }
{
    match edition {
        Edition::NlsPlus => packing::length_of(kind),
        Edition::Pls => pls::length_of(kind),
    }
}

// The eighty bytes of the record that a message of a type fills, before any rule is asked, and whether each of its
// fields can be stored: digits may spell no number, or one that a record has no room for.
pub fn unpack(edition: Edition, b: &mut [u8; RECORD], m: &[u8], kind: Kind) -> bool
    ensures bytes { b.new ≡ record_bytes (filled_in (layout_of edition kind) m.now) }
    ensures ready { result ≡ ready_in (layout_of edition kind) m.now }
{
    match edition {
        Edition::NlsPlus => {
            packing::unpack(b, m, kind);
            true
        }
        Edition::Pls => plsread::unpack(b, m, kind),
    }
}

// Stores the message of a type at the front of out, from the eighty bytes of a record; what is no type has none.
pub fn store(edition: Edition, out: &mut [u8], b: &[u8], kind: Kind)
    ensures { out.new
        ≡ sets out.old 0 (bytes_in (layout_of edition kind) (record_of b.now)) }
{
    match edition {
        Edition::NlsPlus => packing::store(out, b, kind),
        Edition::Pls => plswrite::store(out, b, kind),
    }
}
