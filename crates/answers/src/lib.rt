// The answers of every call: that it is done, or why it is refused.
#![tactic(auto)]

ghost use Rattle.std.specs.Prelude.{◌≡◌};
ghost use Rattle.answers.specs.Answers.{refusal_number, number_of};

// Why a call is refused, one for each number of the table but 0, which says that it is done.
#[derive(Clone, Copy, Debug, PartialEq, Eq)]
pub enum Refusal {
    NumberOutside,
    NumberBelow,
    NumberAbove,
    NoType,
    FieldBroken,
    NotDue,
    NotListed,
    NoLine,
    LineDead,
    LineDiffers,
    KeyUsed,
    LinesFull,
    ListingBroken,
    ListingLate,
    ListedAlready,
    RowsFull,
    Unsound,
    NoSpace,
}

// The refusal's number in the table.
impl From<Refusal> for u8 {
    ghost from_gives = { λ refusal n. n ≡ refusal_number refusal };

    fn from(refusal: Refusal) -> u8 {
        match refusal {
            Refusal::NumberOutside => 1,
            Refusal::NumberBelow => 2,
            Refusal::NumberAbove => 3,
            Refusal::NoType => 4,
            Refusal::FieldBroken => 5,
            Refusal::NotDue => 6,
            Refusal::NotListed => 7,
            Refusal::NoLine => 8,
            Refusal::LineDead => 9,
            Refusal::LineDiffers => 10,
            Refusal::KeyUsed => 11,
            Refusal::LinesFull => 12,
            Refusal::ListingBroken => 13,
            Refusal::ListingLate => 14,
            Refusal::ListedAlready => 15,
            Refusal::RowsFull => 16,
            Refusal::Unsound => 17,
            Refusal::NoSpace => 18,
        }
    }
}

// The answer's number in the table.
pub fn number(answer: Result<(), Refusal>) -> u8
    ensures { result ≡ number_of answer }
{
    match answer {
        Ok(()) => 0,
        Err(refusal) => u8::from(refusal),
    }
}
