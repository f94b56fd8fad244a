// A block of keystream onto a part of a buffer.
// Follows RFC 3711, section 4.1: keystream and bytes are XORed.
#![tactic(auto)]

pub mod part;
