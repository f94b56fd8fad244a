// AES in counter mode: the keystream onto a packet's portion, and the derivation of session keys.
// Follows RFC 3711, sections 4.1.1 and 4.3.
#![tactic(auto)]

pub mod derivation;
pub mod portion;
