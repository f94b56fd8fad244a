// The input of a program, cut into lines.
// Follows docs/CALLS.md, "A line".
#![tactic(auto)]

pub mod lines;
