// The policies, what each uses, and which packets it takes.
// Follows document 01 ("The library's work", "Numbers given back"), document 02 (CR 2) and RFC 9335, section 5.
#![tactic(auto)]

pub mod judge;
pub mod policy;
pub mod uses;
