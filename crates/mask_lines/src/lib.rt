// The line of the call script on the mask of a header extension, answered: `mask`.
// Follows docs/CALLS.md.
#![tactic(auto)]

pub mod mask;
