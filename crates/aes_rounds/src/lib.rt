// A round of the cipher, and the last round.
// Follows FIPS 197 (2001), section 5.1.
#![tactic(auto)]

pub mod round;
