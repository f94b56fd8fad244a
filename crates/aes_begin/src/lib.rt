// The first two rounds of blocks that differ in their last two bytes only, as those of counter mode do: begun once, and ended for each.
// Follows FIPS 197 (2001), section 5.1.
#![tactic(auto)]

pub mod begin;
