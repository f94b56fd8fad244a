// The counter block of AES in counter mode, and the keystream that its blocks are.
// Follows RFC 3711, section 4.1.1.
#![tactic(auto)]

pub mod counter;
pub mod start;
