// The sizes that a caller of the library needs: what it lends room by, and how much of it is written. They are asked
// for by number: so C asks.
#![tactic(auto)]

ghost use Rattle.std.specs.Prelude.{◌≡◌};
ghost use Rattle.sizes.specs.Sizes.{size_of, length_at};

use editions::Edition;
use formats::length_of;
use kinds::kind_at;

// Where the list of sizes has those of the types' messages, S T X C J of each edition, and how many types there are.
const FIRST_TYPE: u64 = 8;

const TYPES: u64 = 5;

// The length of a type's messages, by its place among those of NLS Plus and then of PLS; 0 of what an edition lacks and
// past the end.
fn length_at(place: u64) -> usize
    ensures { result ≡ length_at place }
{
    if TYPES <= place {
        return length_of(Edition::Pls, kind_at(place - TYPES));
    }
    length_of(Edition::NlsPlus, kind_at(place))
}

// A size, by its place in the list of sizes; 0 past the end of the list.
pub fn size(which: u64) -> u64
    ensures { result ≡ size_of which }
{
    match which {
        0 => rows::CELL as u64,
        1 => rows::CAP as u64,
        2 => lines::CELL as u64,
        3 => lines::CAP as u64,
        4 => pls::LONGEST as u64,
        5 => records::RECORD as u64,
        6 => words::COUNTERS as u64,
        7 => words::ROW as u64,
        _ => length_at(which - FIRST_TYPE) as u64,
    }
}
