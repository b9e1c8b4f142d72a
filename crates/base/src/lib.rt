// The ground floor: the numbers that the paper names, the plan of a trip, and the tests of their
// ranges. A number stands once for the code (limits, refusal, road, state) and once for the definitions
// (specs/); the proofs of the tests below hold the two together.
#![tactic(auto)]

pub mod limits;
pub mod refusal;
pub mod road;
pub mod state;

ghost use Rattle.std.specs.Prelude.{◌≡◌};
ghost use Rattle.base.specs.Second.{too_many, state_known, speed_in_range, altitude_in_range, co2_in_range, nox_in_range};
ghost use Rattle.base.specs.Plan.{reference_in_range, curve_in_range, tolerance_in_range, plan_in_range};

pub use refusal::{Refusal, Refused};
pub use road::Road;

// What a trip is judged by, fixed before the drive.
#[repr(C)]
#[derive(Clone, Copy, PartialEq, Eq)]
pub struct Plan {
    pub reference: u32, // reference CO2 mass, mg: half the laboratory cycle's
    pub e1: u32, // curve value E1, mg/km
    pub e2: u32, // curve value E2, mg/km
    pub e3: u32, // curve value E3, mg/km
    pub lower: u8, // lower tolerance, percent
    pub urban: u8, // upper tolerance for urban windows, percent
    pub rural: u8, // upper tolerance for rural windows, percent
    pub motorway: u8, // upper tolerance for motorway windows, percent
}

// Whether every value of a plan is in its range.
pub fn plan_in_range(plan: Plan) -> bool
    ensures { result ≡ plan_in_range plan }
{
    reference_in_range(plan.reference)
        & curve_in_range(plan.e1)
        & curve_in_range(plan.e2)
        & curve_in_range(plan.e3)
        & tolerance_in_range(plan.lower)
        & tolerance_in_range(plan.urban)
        & tolerance_in_range(plan.rural)
        & tolerance_in_range(plan.motorway)
}

// Whether a reference mass, in mg, is in its range.
// Kept: no plainer: each range is one comparison with its own limit; one function of all would be that comparison.
pub fn reference_in_range(reference: u32) -> bool
    ensures { result ≡ reference_in_range reference }
{
    (1 <= reference) & (reference <= limits::REFERENCE)
}

// Whether a curve value, in mg/km, is in its range.
pub fn curve_in_range(value: u32) -> bool
    ensures { result ≡ curve_in_range value }
{
    (1 <= value) & (value <= limits::CURVE)
}

// Whether a tolerance, in percent, is in its range.
pub fn tolerance_in_range(tolerance: u8) -> bool
    ensures { result ≡ tolerance_in_range tolerance }
{
    tolerance <= limits::TOLERANCE
}

// Whether n seconds, or values, are more than one call takes.
pub fn too_many(n: usize) -> bool
    ensures { result ≡ too_many n }
{
    limits::TRIP < n
}

// Whether a state is one of the three.
// Kept: the C interface: a state is a byte of a lane, and any byte has an answer.
pub fn state_known(state: u8) -> bool
    ensures { result ≡ state_known state }
{
    (state == state::MEASURED) | (state == state::MISSING) | (state == state::CHECK)
}

// Whether a speed, in 0.01 km/h, is in its range.
pub fn speed_in_range(speed: u16) -> bool
    ensures { result ≡ speed_in_range speed }
{
    speed <= limits::SPEED
}

// Whether an altitude, in cm, is in its range.
pub fn altitude_in_range(altitude: i32) -> bool
    ensures { result ≡ altitude_in_range altitude }
{
    (limits::ALTITUDE_LOWEST <= altitude) & (altitude <= limits::ALTITUDE_HIGHEST)
}

// Whether a CO2 mass, in mg in the second, is in its range.
pub fn co2_in_range(co2: u32) -> bool
    ensures { result ≡ co2_in_range co2 }
{
    co2 <= limits::CO2
}

// Whether a NOx mass, in µg in the second, is in its range.
pub fn nox_in_range(nox: u32) -> bool
    ensures { result ≡ nox_in_range nox }
{
    nox <= limits::NOX
}
