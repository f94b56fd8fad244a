// The lines of the call script that set a session up, answered: `make` and `add`.
// Follows docs/CALLS.md.
#![tactic(auto)]

pub mod add;
pub mod make;
