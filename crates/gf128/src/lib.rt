// Blocks of 128 bits, and what the product of two is.
// Follows NIST SP 800-38D, section 6.3.
#![tactic(auto)]

pub mod block;
pub mod claims;
