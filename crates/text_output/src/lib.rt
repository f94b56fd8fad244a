// Parts of a line of output.
// Follows docs/CALLS.md.
#![tactic(auto)]

pub mod output;
