// What is claimed of the definitions of header, elements and mask.
// Follows RFC 3550 (5.1, 5.3.1), RFC 8285 (4.2, 4.3), RFC 6904 (3, A.2) and document 01.
#![tactic(auto)]

pub mod claims;
