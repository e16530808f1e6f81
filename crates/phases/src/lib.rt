// The phases of a day, which its events begin, and which messages are due in each.
#![tactic(auto)]

ghost use Rattle.std.specs.Prelude.{◌≡◌};
ghost use Rattle.phases.specs.Phases as Phases;

use kinds::{Kind, is_event};

// The phase that event C, the last, begins.
pub const LAST_PHASE: u64 = 6;

// The phase that an event begins: 1 to 6 for O S Q M E C, 0 for any other byte. A number, since the counters hold
// whatever number a caller hands them.
pub fn phase_of(event: u8) -> u64
    ensures { result ≡ Phases.phase_of event }
{
    match event {
        b'O' => 1,
        b'S' => 2,
        b'Q' => 3,
        b'M' => 4,
        b'E' => 5,
        b'C' => 6,
        _ => 0,
    }
}

// Whether a message of a type is due: an event that comes later than the last one taken, any other between the first
// event and C.
pub fn is_due(phase: u64, kind: Kind, event: u8) -> bool
    ensures { result ≡ Phases.due phase kind event }
{
    if is_event(kind) {
        return phase < phase_of(event);
    }
    (0 < phase) & (phase < LAST_PHASE)
}
