// Why a call was refused.
ghost use Rattle.std.specs.Prelude.{◌≡◌};
ghost use Rattle.ballot.specs.Refusals.{refusal_number, refusal_value};

// Each case is one cause. Where a text is at fault, its line and byte stand beside the cause.
#[derive(Clone, Copy, Debug, PartialEq, Eq)]
pub enum Refusal {
    CandidatesOutOfRange,
    WinnerNotCandidate,
    FactorOutOfRange,
    AssertionUnfit,
    FractionOutOfRange,
    DossierFull,
    NumberNotLive,
    Malformed,
    CandidateForeignOrRepeated,
    CountOutOfRange,
    LimitOutOfRange,
    OtherContest,
    NotChecked,
    NotTallied,
    AssertionDoesNotHold(u32),
    BufferTooShort(u64),
    InputTooLong,
    PlaceOutOfRange,
    PositionOut,
    TooManyOut,
    NotThisBooksSlip,
    DrawsExhausted,
}

impl Refusal {
    pub fn number(&self) -> u32
        ensures { result ≡ refusal_number self.now }
    {
        match self {
            Refusal::CandidatesOutOfRange => 1,
            Refusal::WinnerNotCandidate => 2,
            Refusal::FactorOutOfRange => 3,
            Refusal::AssertionUnfit => 4,
            Refusal::FractionOutOfRange => 5,
            Refusal::DossierFull => 6,
            Refusal::NumberNotLive => 7,
            Refusal::Malformed => 8,
            Refusal::CandidateForeignOrRepeated => 9,
            Refusal::CountOutOfRange => 10,
            Refusal::LimitOutOfRange => 11,
            Refusal::OtherContest => 12,
            Refusal::NotChecked => 13,
            Refusal::NotTallied => 14,
            Refusal::AssertionDoesNotHold(_) => 15,
            Refusal::BufferTooShort(_) => 16,
            Refusal::InputTooLong => 16,
            Refusal::PlaceOutOfRange => 17,
            Refusal::PositionOut => 18,
            Refusal::TooManyOut => 19,
            Refusal::NotThisBooksSlip => 20,
            Refusal::DrawsExhausted => 21,
        }
    }

    // The assertion that does not hold, the length that is needed, or the longest input.
    pub fn value(&self) -> Option<u64>
        ensures { result ≡ refusal_value self.now }
    {
        match self {
            Refusal::AssertionDoesNotHold(number) => Some(u64::from(*number)),
            Refusal::BufferTooShort(needed) => Some(*needed),
            Refusal::InputTooLong => Some(65536),
            _ => None,
        }
    }
}
