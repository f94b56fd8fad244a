// SHA-1 of a message: the initial hash value, the hash of the whole, and the digest.
// Follows FIPS 180-4, sections 5.3.1 and 6.1, whose definitions are in sha1_compress.
#![tactic(auto)]

pub mod digest;
