// The library for C and Rust: each call on memory that the caller lends, a session as 64-bit words, under its exported name. No call requires anything.
// Follows documents 01 and 02; each export is a line over the call in `making`, `adding`, `srtp` or `keystream`, with the same contract.
#![tactic(auto)]

pub mod packets;
pub mod sessions;
pub mod stretch;
