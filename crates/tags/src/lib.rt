// Authentication tags compared: every byte of both, wherever they first differ.
// Follows RFC 3711, section 3.3, and NIST SP 800-38D, section 7.2, step 8.
#![tactic(auto)]

pub mod tag;
