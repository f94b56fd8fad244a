// The header keystream onto the listed elements of a header extension, and onto nothing else.
// Follows RFC 6904, section 3, whose definitions are in rtp_elements.
#![tactic(auto)]

pub mod elements;
pub mod listed;
