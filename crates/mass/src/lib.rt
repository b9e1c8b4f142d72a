// From concentration to mass: one reading of the gas bench, with the setting that it was taken at,
// gives the whole mass of the second, CO2 in mg or NOx in µg, or a refusal.
// specs/Mass.antt says what is right, in the paper's words.
#![tactic(auto)]

ghost use Rattle.std.specs.Prelude.{◌≡◌};
ghost use Rattle.mass.specs.Mass.{zero_to, above_zero_to, reading_in_range, setting_in_range, wet_ppm, last_product, whole_part, mass_answer, co2_mass, nox_mass};
ghost use Rattle.mass.specs.Inside.{Bounded};

use base::Refusal;

// What the gas bench read. Ppm runs 0 to 200,000, percent 0 to 20.
#[derive(Clone, Copy)]
pub enum Reading {
    WetPpm(f64),
    DryPpm(f64),
    WetPercent(f64),
    DryPercent(f64),
}

// What the reading was taken at.
#[repr(C)]
#[derive(Clone, Copy)]
pub struct Setting {
    pub u: f64, // above 0, at most 0.01
    pub factor: f64, // the dry-wet factor: above 0, at most 1
    pub flow: f64, // exhaust flow, kg/s: 0 to 1
}

// The CO2 mass of the second, in mg.
// Kept: no plainer: the two calls of the paper; what they share is `mass_of`.
pub fn co2_mass(reading: Reading, setting: Setting) -> Result<u32, Refusal>
    ensures { result ≡ co2_mass reading setting }
{
    mass_of(reading, setting, MG_IN_A_GRAM, base::limits::CO2)
}

// The NOx mass of the second, in µg.
pub fn nox_mass(reading: Reading, setting: Setting) -> Result<u32, Refusal>
    ensures { result ≡ nox_mass reading setting }
{
    mass_of(reading, setting, UG_IN_A_GRAM, base::limits::NOX)
}

const MG_IN_A_GRAM: f64 = 1_000.0;

const UG_IN_A_GRAM: f64 = 1_000_000.0;

// The ranges of the inputs; both ends are in range, but for a zero where it says above 0.
const PPM_MAX: f64 = 200_000.0; // from 0

const PERCENT_MAX: f64 = 20.0; // from 0

const U_MAX: f64 = 0.01; // above 0

const FACTOR_MAX: f64 = 1.0; // above 0

const FLOW_MAX: f64 = 1.0; // from 0

const PPM_IN_A_PERCENT: f64 = 10_000.0;

// The mass at a scale, refused where it is above limit.
fn mass_of(reading: Reading, setting: Setting, scale: f64, limit: u32) -> Result<u32, Refusal>
    requires { Bounded scale 1_000_000 }
    ensures { result ≡ mass_answer scale limit reading setting }
{
    if !reading_in_range(reading) || !setting_in_range(setting) {
        return Err(Refusal::MassInput);
    }
    let whole = whole_part(last_product(reading, setting, scale));
    if whole <= limit as u64 {
        Ok(whole as u32)
    } else {
        Err(Refusal::MassTooLarge)
    }
}

// Whether the reading is in the range of its unit.
fn reading_in_range(reading: Reading) -> bool
    ensures { result ≡ reading_in_range reading }
{
    match reading {
        Reading::WetPpm(x) | Reading::DryPpm(x) => zero_to(x, PPM_MAX),
        Reading::WetPercent(x) | Reading::DryPercent(x) => zero_to(x, PERCENT_MAX),
    }
}

// Whether each of the three settings is in its range.
fn setting_in_range(setting: Setting) -> bool
    ensures { result ≡ setting_in_range setting }
{
    above_zero_to(setting.u, U_MAX)
        & above_zero_to(setting.factor, FACTOR_MAX)
        & zero_to(setting.flow, FLOW_MAX)
}

// Whether x is from 0 to top. A NaN is not.
fn zero_to(x: f64, top: f64) -> bool
    ensures { result ≡ zero_to x top }
{
    (0.0..=top).contains(&x)
}

// Whether x is above 0 and at most top. A NaN is not.
// Kept: no plainer: a range that leaves out its start is a pair of bounds in std, longer than this.
fn above_zero_to(x: f64, top: f64) -> bool
    ensures { result ≡ above_zero_to x top }
{
    (0.0 < x) & (x <= top)
}

// The wet concentration in ppm: percent times 10,000, then dry times the factor.
fn wet_ppm(reading: Reading, factor: f64) -> f64
    ensures { result ≡ wet_ppm reading factor }
{
    match reading {
        Reading::WetPpm(x) => x,
        Reading::DryPpm(x) => x * factor,
        Reading::WetPercent(x) => x * PPM_IN_A_PERCENT,
        Reading::DryPercent(x) => x * PPM_IN_A_PERCENT * factor,
    }
}

// The products in the paper's order, one rounding each: u times the wet concentration, times flow,
// times the scale.
fn last_product(reading: Reading, setting: Setting, scale: f64) -> f64
    ensures { result ≡ last_product scale reading setting }
{
    let ppm = wet_ppm(reading, setting.factor);
    setting.u * ppm * setting.flow * scale
}

// An f64 from 1 up holds `digits` * 2^(`exponent` - 1,075): the exponent's field stands above the
// lowest 52 bits, and those are the digits below a leading one.
const FRACTION: u64 = 0x10_0000_0000_0000;

const EXPONENT_OF_WHOLE: u64 = 1_075;

// The whole part of x, from its bits.
// Kept: may not change: the paper has the whole part "found from its bits" (docs/MAP.md), so no cast takes it.
fn whole_part(x: f64) -> u64
    requires { Bounded x 200_000_000_000 }
    ensures { result ≡ whole_part x }
{
    if x < 1.0 {
        return 0;
    }
    let bits = f64::to_bits(x);
    let exponent = bits / FRACTION;
    let digits = bits % FRACTION + FRACTION;
    digits >> (EXPONENT_OF_WHOLE - exponent)
}
