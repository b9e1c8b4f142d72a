// The limits and ranges of the paper. Both ends of a range are in it.

// The most seconds, or values, that one call takes.
pub const TRIP: usize = 8_192;

// A second's speed, 0.01 km/h, from 0.
pub const SPEED: u16 = 25_000;

// A second's altitude, cm.
pub const ALTITUDE_LOWEST: i32 = -50_000;

pub const ALTITUDE_HIGHEST: i32 = 500_000;

// The CO2 mass in a second, mg, from 0.
pub const CO2: u32 = 100_000;

// The NOx mass in a second, µg, from 0.
pub const NOX: u32 = 10_000_000;

// A plan's reference CO2 mass, mg, from 1.
pub const REFERENCE: u32 = 20_000_000;

// A plan's curve value, mg/km, from 1.
pub const CURVE: u32 = 2_000_000;

// A plan's tolerance, percent, from 0.
pub const TOLERANCE: u8 = 100;
