// The verdict: a sixteen-bit number, a bit for each reason why a trip is not valid.
#![tactic(auto)]

ghost use Rattle.std.specs.Prelude.{◌≡◌};
ghost use Rattle.verdict.specs.Verdict.{mask_of, has_any, verdict};
ghost use Rattle.reasons.specs.Inside.{named};

use reasons::{Figures, Reason};

// The masks of the reasons: each is the bit of one reason in the verdict.
// Kept: the C interface: a mask crosses as a number, which the header names.
pub const TRIP_LENGTH: u16 = 0x0001;

pub const MISSING_SECONDS: u16 = 0x0002;

pub const SHORT_PART: u16 = 0x0004;

pub const SHARE_OF_DISTANCE: u16 = 0x0008;

pub const URBAN_MEAN: u16 = 0x0010;

pub const SLOW_SECONDS: u16 = 0x0020;

pub const FEW_FAST_SECONDS: u16 = 0x0040;

pub const TOO_FAST: u16 = 0x0080;

pub const ENDS_APART: u16 = 0x0100;

pub const TOO_HIGH: u16 = 0x0200;

pub const TOO_MUCH_CLIMB: u16 = 0x0400;

pub const FEW_PRODUCTS: u16 = 0x0800;

pub const LIVELY_BIN: u16 = 0x1000;

pub const DULL_BIN: u16 = 0x2000;

pub const NO_WINDOWS: u16 = 0x4000;

pub const OUTSIDE_BAND: u16 = 0x8000;

// The verdict: zero says that the trip is valid.
pub fn judge(figures: &Figures) -> u16
    ensures { result ≡ verdict figures.now }
{
    let mut verdict: u16 = 0;
    for reason in Reason::ALL {
        if reason.holds(figures) {
            verdict |= mask_of(reason);
        }
    }
    verdict
}

// Whether a verdict has any of the reasons of a mask.
pub fn has_reason(verdict: u16, mask: u16) -> bool
    ensures { result ≡ has_any verdict mask }
{
    (verdict & mask) != 0
}

// The mask of a reason.
fn mask_of(reason: Reason) -> u16
    ensures { result ≡ mask_of (named reason) }
{
    match reason {
        Reason::TripLength => TRIP_LENGTH,
        Reason::MissingSeconds => MISSING_SECONDS,
        Reason::ShortPart => SHORT_PART,
        Reason::ShareOfDistance => SHARE_OF_DISTANCE,
        Reason::UrbanMean => URBAN_MEAN,
        Reason::SlowSeconds => SLOW_SECONDS,
        Reason::FewFastSeconds => FEW_FAST_SECONDS,
        Reason::TooFast => TOO_FAST,
        Reason::EndsApart => ENDS_APART,
        Reason::TooHigh => TOO_HIGH,
        Reason::TooMuchClimb => TOO_MUCH_CLIMB,
        Reason::FewProducts => FEW_PRODUCTS,
        Reason::LivelyBin => LIVELY_BIN,
        Reason::DullBin => DULL_BIN,
        Reason::NoWindows => NO_WINDOWS,
        Reason::OutsideBand => OUTSIDE_BAND,
    }
}
