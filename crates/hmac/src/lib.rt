// HMAC-SHA1, with the states of a key made once.
// Follows RFC 2104, whose section 2 the definitions in specs/ follow.
#![tactic(auto)]

pub mod key;
pub mod mac;
