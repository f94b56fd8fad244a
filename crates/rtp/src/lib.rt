// Finding an element in a packet that anyone may have sent.
// Follows RFC 8285 (4.1.2, 4.2, 4.3) and document 01.
#![tactic(auto)]

pub mod find;
