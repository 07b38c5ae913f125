// The ground floor: what the chip and the images both stand on. The kinds of part, the form of a reply, and small words that
// larger functions are made of. Nothing here knows a state or a text.
#![tactic(auto)]

pub mod cases;
pub mod kinds;

ghost use Rattle.std.specs.Prelude.{◌≡◌};
ghost use Rattle.ground.specs.Verdict.{number_of};

// Why something is refused, in the order of the refusal numbers: 1 to 3 of a power-up, 4 to 10 of a replay, 11 to 18 of reading an image, 19
// of writing one, 20 to 23 of a dump.
#[derive(Clone, Copy, Debug, PartialEq, Eq)]
pub enum Reason {
    PartUnknown,
    SelectTooHigh,
    StoredHasLatch,
    StateOutOfRange,
    ArrayLength,
    RowLengths,
    TooManySamples,
    AnswerLength,
    TimeTooLong,
    LevelTooHigh,
    TextTooLong,
    LineMalformed,
    ChecksumWrong,
    RecordType,
    BeyondArray,
    GivenTwice,
    EndMissing,
    BytesAfterEnd,
    RoomTooSmall,
    DumpMalformed,
    WiresWrong,
    TimeNotAbove,
    ValueUnfit,
}

impl From<Reason> for u8 {
    ghost from_gives = { λ reason n. n ≡ number_of reason };

    fn from(reason: Reason) -> u8 {
        match reason {
            Reason::PartUnknown => 1,
            Reason::SelectTooHigh => 2,
            Reason::StoredHasLatch => 3,
            Reason::StateOutOfRange => 4,
            Reason::ArrayLength => 5,
            Reason::RowLengths => 6,
            Reason::TooManySamples => 7,
            Reason::AnswerLength => 8,
            Reason::TimeTooLong => 9,
            Reason::LevelTooHigh => 10,
            Reason::TextTooLong => 11,
            Reason::LineMalformed => 12,
            Reason::ChecksumWrong => 13,
            Reason::RecordType => 14,
            Reason::BeyondArray => 15,
            Reason::GivenTwice => 16,
            Reason::EndMissing => 17,
            Reason::BytesAfterEnd => 18,
            Reason::RoomTooSmall => 19,
            Reason::DumpMalformed => 20,
            Reason::WiresWrong => 21,
            Reason::TimeNotAbove => 22,
            Reason::ValueUnfit => 23,
        }
    }
}

// A refusal: why, and where.
#[derive(Clone, Copy, Debug, PartialEq, Eq)]
pub struct Refusal {
    pub reason: Reason,
    pub place: usize,
}

// What is refused as a whole has place 0.
impl From<Reason> for Refusal {
    ghost from_gives = { λ reason refusal. refusal ≡ record { reason = reason; place = 0 } };

    fn from(reason: Reason) -> Refusal {
        Refusal { reason, place: 0 }
    }
}

// Accepted with a count, or refused.
pub type Reply = Result<usize, Refusal>;
