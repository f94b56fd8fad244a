// The line of the call script on what a session's memory holds, answered: `state`.
// Follows docs/CALLS.md.
#![tactic(auto)]

pub mod state;
