// A column of a round, by the round table.
// Follows FIPS 197 (2001), sections 5.1.1, 5.1.3 and 5.1.4.
#![tactic(auto)]

pub mod column;
