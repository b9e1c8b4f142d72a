// What C links: each function of `capi` under its C name, with the same contract, a module for each of
// `capi`'s. It does nothing else; a crate that other crates stand on can export nothing itself.
// Kept: the C interface: a library that others stand on exports nothing, so its calls stand here once more.
#![tactic(auto)]

pub mod accelerations;
pub mod concentration;
pub mod feeding;
pub mod masks;
pub mod release;
pub mod streams;
pub mod sweeping;
pub mod trips;
