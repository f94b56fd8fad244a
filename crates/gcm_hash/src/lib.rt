// The hash that GCM authenticates a packet by: what is not encrypted, what is, and both lengths.
// Follows NIST SP 800-38D, section 7.1, steps 4 and 5; which bytes are which follows RFC 7714, section 8.2, and RFC 9335, section 6.2.
#![tactic(auto)]

pub mod hash;
