// The keys of a message's trades, and whether a line is the trade that a message names.
#![tactic(auto)]

ghost use Rattle.std.specs.Prelude.{◌≡◌, ◌∷◌};
ghost use Rattle.keys.specs.Keys as Keys;

use kinds::{Kind, is_correction};
use lines::Line;
use octets::run::same_at;
use records::{Record, Sale};

// The key of a trade: the centre and the control.
fn key_of(centre: u8, control: [u8; 10]) -> [u8; lines::KEY]
    ensures { result ≡ centre ∷ control }
{
    let mut key = [centre; lines::KEY];
    key[1..].copy_from_slice(&control);
    key
}

// The key of the original that X and C name, and of T's own trade.
pub fn old_key(r: Record) -> [u8; lines::KEY]
    ensures { result ≡ Keys.old_key r }
{
    key_of(r.centre, r.sale.control)
}

// What T and C put in.
fn new_sale(kind: Kind, r: Record) -> Sale
    ensures { result ≡ Keys.new_sale kind r }
{
    if is_correction(kind) { r.new } else { r.sale }
}

// The key of the line that T and C make.
pub fn new_key(kind: Kind, r: Record) -> [u8; lines::KEY]
    ensures { result ≡ Keys.new_key kind r }
{
    key_of(r.centre, new_sale(kind, r).control)
}

// Whether the line is the trade that the message names. Symbol and condition are compared by `same_at`, at once.
#[tactic(auto, using(octets::proofs::Trips::whole), unfolding(crate::specs::Keys::matches))]
pub fn is_match(r: Record, l: Line) -> bool
    ensures { result ≡ Keys.matches r l }
{
    same_at(&l.symbol, 0, &r.symbol)
        && l.price == r.sale.price
        && l.size == r.sale.size
        && same_at(&l.condition, 0, &r.sale.condition)
}
