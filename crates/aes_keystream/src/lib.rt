// The keystream of AES in counter mode onto stretches of a buffer, a block at a time.
// Follows RFC 3711, section 4.1.1.
#![tactic(auto)]

pub mod keystream;
pub mod seek;
