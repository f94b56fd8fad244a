// The functions and constants of SHA-1 on words of 32 bits, and their definitions.
// Follows FIPS 180-4, sections 2.2.2, 3.2, 4.1.1 and 4.2.1.
#![tactic(auto)]

pub mod word;
