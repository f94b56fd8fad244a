// A session: what it is, what each call on it means, and how it lies in memory that the caller lends.
// Follows document 01 and document 02, CR 3; how a session lies in memory is this library's own (specs/Memory.antt).
#![tactic(auto)]

pub mod answer;
pub mod claims;
pub mod layout;
pub mod load;
