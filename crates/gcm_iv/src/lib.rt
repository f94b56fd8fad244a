// The IV of a packet under GCM.
// Follows RFC 7714, section 8.1.
#![tactic(auto)]

pub mod iv;
