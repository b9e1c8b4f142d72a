// The C interface: what include/pierbracken.h declares, a module for each part of it; there they
// stand in the order release, masks (of reasons), concentration, streams, feeding, sweeping, accelerations,
// trips. Each function takes and gives plain numbers, structs by value and lent lanes, and answers
// as the call of the library that it stands for; the number of refusal, the place and the results
// cross in one struct. The crate `capi_c` exports each under its name.
// Kept: the C interface: each lane crosses by itself, as a pointer and a length; a kind, a refusal and a mask as numbers.
#![tactic(auto)]

pub mod accelerations;
pub mod concentration;
pub mod feeding;
pub mod masks;
pub mod release;
pub mod streams;
pub mod sweeping;
pub mod trips;
