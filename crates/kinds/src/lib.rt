// A message's type, which its letter names. The letters stand here and nowhere else; whoever goes by the type goes by
// its `Kind`, and by what `traits_of` says of it.
#![tactic(auto)]

ghost use Rattle.std.specs.Prelude.{◌≡◌};
ghost use Rattle.kinds.specs.Kinds.{kind_of, kind_at, traits_of};
ghost use Rattle.kinds.specs.Kinds.{is_event, is_correction, is_summary, names_old, makes_new, sets_volume};

#[derive(Clone, Copy)]
pub enum Kind {
    // S, system event.
    Event,
    // T, trade report.
    Trade,
    // X, trade cancel/error.
    Cancel,
    // C, trade correction.
    Correction,
    // J, end of day trade summary.
    Summary,
    // Any other byte: no type that the cabinet reads.
    Other,
}

// The letters.
pub const S_LETTER: u8 = b'S';

pub const T_LETTER: u8 = b'T';

pub const X_LETTER: u8 = b'X';

pub const C_LETTER: u8 = b'C';

pub const J_LETTER: u8 = b'J';

// The type that a letter names.
impl From<u8> for Kind {
    ghost from_gives = { λ letter kind. kind ≡ kind_of letter };

    fn from(letter: u8) -> Kind {
        match letter {
            S_LETTER => Kind::Event,
            T_LETTER => Kind::Trade,
            X_LETTER => Kind::Cancel,
            C_LETTER => Kind::Correction,
            J_LETTER => Kind::Summary,
            _ => Kind::Other,
        }
    }
}

// The type at a place of the list of types: S T X C J; none past its end. The place is a number, since C asks for the
// length of a type's messages by one (`sizes::size`).
pub fn kind_at(place: u64) -> Kind
    ensures { result ≡ kind_at place }
{
    match place {
        0 => Kind::Event,
        1 => Kind::Trade,
        2 => Kind::Cancel,
        3 => Kind::Correction,
        4 => Kind::Summary,
        _ => Kind::Other,
    }
}

// What is asked of a type besides its letter and its layout.
#[derive(Clone, Copy)]
pub struct Traits {
    // It is an event.
    pub event: bool,
    // It names an original.
    pub names: bool,
    // It makes a new line.
    pub makes: bool,
    // It sets the reported consolidated volume of its symbol's row, where the edition reports one.
    pub sets: bool,
    // It is the summary.
    pub summary: bool,
}

// The traits of each type, in one table.
pub fn traits_of(kind: Kind) -> Traits
    ensures { result ≡ traits_of kind }
{
    match kind {
        Kind::Event => Traits {
            event: true,
            names: false,
            makes: false,
            sets: false,
            summary: false,
        },
        Kind::Trade => Traits {
            event: false,
            names: false,
            makes: true,
            sets: true,
            summary: false,
        },
        Kind::Cancel => Traits {
            event: false,
            names: true,
            makes: false,
            sets: true,
            summary: false,
        },
        Kind::Correction => Traits {
            event: false,
            names: true,
            makes: true,
            sets: true,
            summary: false,
        },
        Kind::Summary => Traits {
            event: false,
            names: false,
            makes: false,
            sets: true,
            summary: true,
        },
        Kind::Other => Traits {
            event: false,
            names: false,
            makes: false,
            sets: false,
            summary: false,
        },
    }
}

// Whether it is an event: S is.
pub fn is_event(kind: Kind) -> bool
    ensures { result ≡ is_event kind }
{
    traits_of(kind).event
}

// Whether it is a correction: C is. It names an original and makes a new line.
pub fn is_correction(kind: Kind) -> bool
    ensures { result ≡ is_correction kind }
{
    names_old(kind) & makes_new(kind)
}

// Whether it is a summary: J is.
pub fn is_summary(kind: Kind) -> bool
    ensures { result ≡ is_summary kind }
{
    traits_of(kind).summary
}

// Whether it names an original: X and C do.
pub fn names_old(kind: Kind) -> bool
    ensures { result ≡ names_old kind }
{
    traits_of(kind).names
}

// Whether it makes a new line: T and C do.
pub fn makes_new(kind: Kind) -> bool
    ensures { result ≡ makes_new kind }
{
    traits_of(kind).makes
}

// Whether it sets the reported volume where the edition reports one: T, X, C and J do.
pub fn sets_volume(kind: Kind) -> bool
    ensures { result ≡ sets_volume kind }
{
    traits_of(kind).sets
}
