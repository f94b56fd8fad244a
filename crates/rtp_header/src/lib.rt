// The header of an RTP packet: where its parts begin, and whether it can be read.
// Follows RFC 3550, sections 5.1 and 5.3.1, and document 01.
#![tactic(auto)]

pub mod header;
