// The refusals of every call, under one name each, and their numbers. C and Rust use the same names.
#![tactic(auto)]

ghost use Rattle.std.specs.Prelude.{◌≡◌};
ghost use Rattle.refusals.specs.Numbers.{number_of};

// Why a call refuses. The paper's number of each case is `number_of` of specs/Numbers.antt.
#[derive(Clone, Copy, PartialEq, Eq)]
pub enum Refusal {
    // A line is not whole pairs of uppercase digits ended by 0A, or it is empty.
    NotDigits,
    // The bytes of a frame do not sum to 0 modulo 256.
    WrongCheck,
    // The kind or the length of a frame is wrong for its position.
    WrongFrame,
    // A field is against the ranges or rules.
    WrongField,
    // A segment beyond S, or too few.
    WrongCount,
    // A leg is taken already.
    LegTaken,
    // The output is shorter than the network.
    OutputTooShort,
    // The bytes are no network that Read could keep.
    NotANetwork,
    // A node is not below N.
    NoSuchNode,
    // The tolerance is not 1 to 4.
    NoSuchTolerance,
    // Scratch or route buffer are too short, or the place is beyond the buffer's end.
    NoRoom,
    // A segment is not below S; or a run is not below 2S, or not open.
    NoSuchRun,
    // No movement joins the two runs.
    NoMovement,
    // Read would accept the text, so that no line of it is refused.
    NoRefusedLine,
    // A lent list or mark list has fewer than N entries.
    TooFewEntries,
    // A network of an edition that has no move that way.
    NoSuchMove,
    // A count or a length above the limits of the edition moved to.
    AboveLimits,
    // The output is shorter than the moved network.
    TooShortForMove,
}

// The paper's number of a refusal.
impl From<Refusal> for u8 {
    ghost from_gives = { λ refusal number. number ≡ number_of refusal };

    fn from(refusal: Refusal) -> u8 {
        match refusal {
            Refusal::NotDigits => 1,
            Refusal::WrongCheck => 2,
            Refusal::WrongFrame => 3,
            Refusal::WrongField => 4,
            Refusal::WrongCount => 5,
            Refusal::LegTaken => 6,
            Refusal::OutputTooShort => 7,
            Refusal::NotANetwork => 8,
            Refusal::NoSuchNode => 9,
            Refusal::NoSuchTolerance => 10,
            Refusal::NoRoom => 11,
            Refusal::NoSuchRun => 12,
            Refusal::NoMovement => 13,
            Refusal::NoRefusedLine => 14,
            Refusal::TooFewEntries => 15,
            Refusal::NoSuchMove => 16,
            Refusal::AboveLimits => 17,
            Refusal::TooShortForMove => 18,
        }
    }
}
