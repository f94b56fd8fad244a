// A message, in one part or in two, cut into blocks, and its padding.
// Follows FIPS 180-4, sections 5.1.1, 5.2.1 and 6.1.2, whose definitions are in sha1_compress.
#![tactic(auto)]

pub mod message;
