// GHASH of bytes that come in parts.
// Follows NIST SP 800-38D, section 6.4; padding and the block of lengths follow section 7.1, steps 4 and 5.
#![tactic(auto)]

pub mod few;
pub mod hash;
pub mod state;
