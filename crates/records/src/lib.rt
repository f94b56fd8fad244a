// The records of a session where they lie in its memory: looked up, a packet judged beside one, and its index stored there.
// Follows document 01, "The library's work" and "Index and record".
#![tactic(auto)]

pub mod places;
pub mod tracks;
