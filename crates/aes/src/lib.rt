// AES-128 by look-up tables: the cipher on one block, and the border that everything above knows it by.
// Follows FIPS 197 (2001), section 5.1, whose definitions are in aes_tables.
#![tactic(auto)]

pub mod blocks;
pub mod cipher;
