// The definitions of AES, and the tables that the code reads, each proved entry by entry from the definitions.
// Follows FIPS 197 (2001), sections 4 and 5.
#![tactic(auto)]

pub mod claims;
mod entries;
pub mod tables;
