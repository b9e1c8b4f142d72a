// Why input is refused: each refusal is given exactly when the paper's table says so, under the paper's
// number.

ghost use Rattle.std.specs.Prelude.{◌≡◌, ◌≢◌, MatchResult};
ghost use Rattle.base.specs.Refusal.{fault, number_of, fault_of};

// What crosses in place of a refusal's number where there is none.
// Kept: the C interface: the answers of C have a number where a refusal may be none.
pub const ACCEPTED: u8 = 0;

// A refusal, with the paper's number.
#[derive(Clone, Copy, PartialEq, Eq)]
pub enum Refusal {
    LanesDiffer = 1, // lanes of one trip differ in length
    TooMany = 2, // more than 8,192 seconds or values
    OutOfRange = 3, // a state or value out of range
    NoSecond = 4, // no second in state 1 or 3, or an asked index past the end
    PlanOutOfRange = 5, // plan out of range
    LaneTooShort = 6, // a lane to be written is too short
    CutItem = 7, // stream ends inside an item
    UnknownKind = 8, // unknown kind
    MassInput = 9, // a mass input not finite or out of range
    MassTooLarge = 10, // the whole-part mass above the second's range
    PlanMisplaced = 11, // plan absent, late or repeated
    TooFewValues = 12, // percentile asked of fewer than 100 values
    StateNotReached = 13, // sweep state that these kept seconds and this reference never reach
}

// A refusal crosses as its number.
impl From<Refusal> for u8 {
    ghost from_gives = { λ refusal number. number ≡ number_of refusal };

    fn from(refusal: Refusal) -> u8 {
        refusal as u8
    }
}

// The refusal with a number that comes back: none has another number.
impl TryFrom<u8> for Refusal {
    ghost use Rattle.base.specs.declared.refusal.Refusal.{Refusal};

    type Error = ();

    ghost try_from_gives = { λ number result. MatchResult result (λ refusal. number ≡ number_of refusal) (λ _. (refusal : Refusal) → number ≢ number_of refusal) };

    fn try_from(number: u8) -> Result<Refusal, ()> {
        match number {
            1 => Ok(Refusal::LanesDiffer),
            2 => Ok(Refusal::TooMany),
            3 => Ok(Refusal::OutOfRange),
            4 => Ok(Refusal::NoSecond),
            5 => Ok(Refusal::PlanOutOfRange),
            6 => Ok(Refusal::LaneTooShort),
            7 => Ok(Refusal::CutItem),
            8 => Ok(Refusal::UnknownKind),
            9 => Ok(Refusal::MassInput),
            10 => Ok(Refusal::MassTooLarge),
            11 => Ok(Refusal::PlanMisplaced),
            12 => Ok(Refusal::TooFewValues),
            13 => Ok(Refusal::StateNotReached),
            _ => Err(()),
        }
    }
}

// Why input is refused, and where: the index of the first bad second or value for an out-of-range one,
// the byte offset of the first bad item of a stream, else 0.
#[derive(Clone, Copy, PartialEq, Eq)]
pub struct Refused {
    pub refusal: Refusal,
    pub place: usize,
}

// Most refusals have no place of their own.
impl From<Refusal> for Refused {
    ghost from_gives = { λ refusal refused. fault_of refused ≡ fault (number_of refusal) 0 };

    fn from(refusal: Refusal) -> Refused {
        Refused {
            refusal: refusal,
            place: 0,
        }
    }
}
