// Checks, and the refusals that they come to.
ghost use Rattle.std.specs.Prelude.{◌≡◌, ◌∷◌, []};
ghost use Rattle.block.specs.Verdict.{number_of, check, verdict};

// Why a call is refused: an entry of document 01's list, which the requests continue.
#[derive(Clone, Copy, PartialEq, Eq)]
pub enum Reason {
    WrongLength,
    TooManyRecords,
    NoFirstInput,
    UnknownKind,
    MisplacedInput,
    WrongPinCount,
    StrayByte,
    PinNotBelow,
    OutOfRange,
    LateArrival,
    WrongHopLimit,
    WrongTable,
    WrongRatio,
    WrongBudget,
    WrongBuffer,
    WrongPatternByte,
    WrongLine,
    WrongName,
    WrongOrder,
}

impl Reason {
    // Its number in the list.
    pub fn number(self) -> u64
        ensures { result ≡ number_of self }
    {
        match self {
            Reason::WrongLength => 1,
            Reason::TooManyRecords => 2,
            Reason::NoFirstInput => 3,
            Reason::UnknownKind => 4,
            Reason::MisplacedInput => 5,
            Reason::WrongPinCount => 6,
            Reason::StrayByte => 7,
            Reason::PinNotBelow => 8,
            Reason::OutOfRange => 9,
            Reason::LateArrival => 10,
            Reason::WrongHopLimit => 11,
            Reason::WrongTable => 12,
            Reason::WrongRatio => 13,
            Reason::WrongBudget => 14,
            Reason::WrongBuffer => 15,
            Reason::WrongPatternByte => 16,
            Reason::WrongLine => 17,
            Reason::WrongName => 18,
            Reason::WrongOrder => 19,
        }
    }
}

// Document 01's refusal: why, and the place, which the list says for each reason.
#[derive(Clone, Copy, PartialEq, Eq)]
pub struct Refusal {
    pub reason: Reason,
    pub place: u64,
}

// One check: what does not pass is refused.
#[tactic(auto, unfolding(crate::specs::Verdict::verdict))]
pub fn check(reason: Reason, place: u64, passes: bool) -> Result<(), Refusal>
    ensures { result ≡ verdict (check reason place passes ∷ []) }
{
    if passes {
        Ok(())
    } else {
        Err(Refusal { reason, place })
    }
}
