// The definitions of SHA-1, but for those on words, and the hash value after one more block.
// Follows FIPS 180-4, sections 5 and 6.1, as the definitions in specs/ name them.
#![tactic(auto)]

pub mod compress;
