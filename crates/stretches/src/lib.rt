// Stretches of a keystream, any keystream: what one is, where it is refused, and what is claimed of them.
// Follows document 02, CR 6, and RFC 3711, section 4.1.
#![tactic(auto)]

pub mod claims;
