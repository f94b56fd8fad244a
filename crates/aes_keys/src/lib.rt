// Words of four bytes, and the key schedule of AES-128.
// Follows FIPS 197 (2001), sections 3.5 and 5.2.
#![tactic(auto)]

pub mod key_schedule;
pub mod word;
