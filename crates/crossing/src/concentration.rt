// From concentration to mass.

ghost use Rattle.std.specs.Prelude.{◌≡◌};
ghost use Rattle.mass.specs.Mass.{co2_mass, nox_mass};
ghost use Rattle.crossing.specs.Concentration.{reading_across, mass_across, answer_of};

use base::Refusal;
use base::refusal::ACCEPTED;
use mass::{Reading, Setting};

// The answer of a mass call.
// Kept: the C interface: a number of refusal and its place beside the rest, as C reads them.
#[repr(C)]
#[derive(Clone, Copy)]
pub struct MassAnswer {
    pub refusal: u8, // 0, 9 or 10
    pub mass: u32, // CO2 in mg or NOx in µg, 0 in a refusal
    pub place: usize, // 0
}

// The CO2 mass of a second, in mg, from a reading of a kind 0 to 3.
// Kept: no plainer: two calls of two lines, which differ in the call that they stand for.
#[tactic(auto, unfolding(crate::specs::Concentration::mass_across, crate::specs::Concentration::reading_across))]
pub fn mass_co2(kind: u8, value: f64, setting: Setting) -> MassAnswer
    ensures { result ≡ answer_of (mass_across co2_mass kind value setting) }
{
    answer(reading(kind, value).and_then(|reading| mass::co2_mass(reading, setting)))
}

// The NOx mass of a second, in µg, from a reading of a kind 0 to 3.
#[tactic(auto, unfolding(crate::specs::Concentration::mass_across, crate::specs::Concentration::reading_across))]
pub fn mass_nox(kind: u8, value: f64, setting: Setting) -> MassAnswer
    ensures { result ≡ answer_of (mass_across nox_mass kind value setting) }
{
    answer(reading(kind, value).and_then(|reading| mass::nox_mass(reading, setting)))
}

// A reading crosses as one of four kinds, in the paper's order, and a value.
// Kept: the C interface: a kind crosses as a number.
const WET_PPM: u8 = 0;

const DRY_PPM: u8 = 1;

const WET_PERCENT: u8 = 2;

const DRY_PERCENT: u8 = 3;

// The reading of a kind; there are no others.
#[tactic(auto, unfolding(crate::specs::Concentration::reading_across, crate::specs::Concentration::reading_of))]
fn reading(kind: u8, value: f64) -> Result<Reading, Refusal>
    ensures { result ≡ reading_across kind value }
{
    match kind {
        WET_PPM => Ok(Reading::WetPpm(value)),
        DRY_PPM => Ok(Reading::DryPpm(value)),
        WET_PERCENT => Ok(Reading::WetPercent(value)),
        DRY_PERCENT => Ok(Reading::DryPercent(value)),
        _ => Err(Refusal::MassInput),
    }
}

// The answer as it crosses: the paper's number, place and mass.
#[tactic(auto, unfolding(crate::specs::Concentration::answer_of))]
fn answer(weighed: Result<u32, Refusal>) -> MassAnswer
    ensures { result ≡ answer_of weighed }
{
    match weighed {
        Ok(mass) => MassAnswer {
            refusal: ACCEPTED,
            mass,
            place: 0,
        },
        Err(refusal) => MassAnswer {
            refusal: u8::from(refusal),
            mass: 0,
            place: 0,
        },
    }
}
