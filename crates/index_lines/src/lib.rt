// The line of the call script on the index of a packet, answered: `guess`.
// Follows docs/CALLS.md.
#![tactic(auto)]

pub mod guess;
