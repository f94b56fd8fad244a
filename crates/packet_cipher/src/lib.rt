// The cipher on the bytes of one packet and its tag, under each policy and suite: what they are, and the code of the first suite's cipher.
// Follows RFC 3711 (3.1, 4.2), RFC 7714 (8), SP 800-38D (7), RFC 9335 (6.1, 6.2) and RFC 6904 (3).
#![tactic(auto)]

pub mod cipher;
pub mod context;
pub mod keys;
