// Vectors of packets, published or made by libsrtp, each through the public calls and printed.
// Follows RFC 9335 (A.1, A.2), as `vectors` names it.
#![tactic(auto)]

pub mod packets;
