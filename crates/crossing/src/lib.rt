// Answers as they cross to C: an answer by cases becomes a struct with the paper's number of refusal, the
// place and the results, and a reading comes as a kind and a value. The crate capi_c gives these calls
// their C names.
#![tactic(auto)]

pub mod accelerations;
pub mod concentration;
pub mod items;
