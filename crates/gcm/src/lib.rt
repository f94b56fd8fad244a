// AES-128-GCM with an IV of twelve bytes and a tag of sixteen, on a buffer in place.
// Follows NIST SP 800-38D, sections 6.2, 6.5 and 7; what is encrypted follows RFC 9335, section 6.2.
#![tactic(auto)]

pub mod claims;
pub mod counter;
pub mod gctr;
pub mod subkey;
pub mod tag;
