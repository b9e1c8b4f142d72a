// The states of a second.
// Kept: the C interface: a lane holds any byte in the place of a state, so states are bytes here.

// All its values were measured.
pub const MEASURED: u8 = 1;

// Its values are ignored.
pub const MISSING: u8 = 2;

// An instrument check: its speed and altitude count, its masses do not.
pub const CHECK: u8 = 3;
