// The line of the call script on a stretch of keystream, answered: `stretch`.
// Follows docs/CALLS.md.
#![tactic(auto)]

pub mod stretch;
