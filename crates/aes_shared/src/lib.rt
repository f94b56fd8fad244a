// What blocks that differ in their last two bytes only have in common after each of the first two rounds, column by column.
// Follows FIPS 197 (2001), section 5.1.
#![tactic(auto)]

pub mod columns;
