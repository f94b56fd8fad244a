// The packet index: the guess of a receiver, the step of a sender, and the memory of accepted indices, so that no packet is taken twice.
// Follows RFC 3711, sections 3.3.1 and 3.3.2, and document 01, "Index and record".
#![tactic(auto)]

pub mod answer;
pub mod guess;
pub mod index;
pub mod receive;
pub mod ring;
pub mod send;
