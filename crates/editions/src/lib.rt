// The editions of the feed: which layouts a book reads its messages by. A book is started for one of them.
#![tactic(auto)]

ghost use Rattle.std.specs.Prelude.{◌≡◌};
ghost use Rattle.editions.specs.Editions.{edition_number, edition_named, reports};

#[derive(Clone, Copy)]
pub enum Edition {
    // NLS Plus 2.0, the binary feed of document 01.
    NlsPlus,
    // PLS 1.1, the PSX ASCII feed, which branch offices still take.
    Pls,
}

// The number of an edition, as a program of another language passes it.
impl From<Edition> for u64 {
    ghost from_gives = { λ edition n. n ≡ edition_number edition };

    fn from(edition: Edition) -> u64 {
        match edition {
            Edition::NlsPlus => 0,
            Edition::Pls => 1,
        }
    }
}

// The edition that a number names.
pub fn edition_of(n: u64) -> Option<Edition>
    ensures { result ≡ edition_named n }
{
    match n {
        0 => Some(Edition::NlsPlus),
        1 => Some(Edition::Pls),
        _ => None,
    }
}

// Whether the edition's messages report a consolidated volume.
pub fn does_report(edition: Edition) -> bool
    ensures { result ≡ reports edition }
{
    match edition {
        Edition::NlsPlus => true,
        Edition::Pls => false,
    }
}
