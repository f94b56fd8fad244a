// What Cryptex writes into the header of a packet: the empty block, and the tag.
// Follows RFC 9335, sections 5.1 and 5.2, whose definitions are in policies.
#![tactic(auto)]

pub mod block;
pub mod tag;
