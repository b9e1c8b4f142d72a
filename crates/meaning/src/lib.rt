// What this build means by "valid".
#![tactic(auto)]

// The release of the meaning: the entry of docs/VALID.md by which this build answers. A change of any
// figure, reason or refusal is a new release.
pub const RELEASE: u32 = 2;
