// Words of a line, and numbers and bytes in them.
// Follows docs/CALLS.md.
#![tactic(auto)]

pub mod reading;
pub mod words;
