// The packet calls on lent session memory: protect and unprotect; and find for a caller that cannot be lent a part of its packet. Nothing is required of a caller.
// Follows document 01, "Numbers given back"; RFC 3711, RFC 7714, RFC 9335 and RFC 6904 through the crates below.
#![tactic(auto)]

mod answer;
pub mod find;
pub mod protect;
pub mod unprotect;
