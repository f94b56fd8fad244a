// The standard's worked examples as theorems of the definitions.
// Follows FIPS 197 (2001), sections 4.1, 4.2 and 5.1.1 and appendices A.1 and B.
#![tactic(auto)]

pub mod examples;
