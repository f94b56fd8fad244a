// The words of a made session before its records: suite, policy, master key and salt, set of ids, session keys.
// Follows document 01, "The library's work", document 02 (CR 3), RFC 3711, 4.3, and RFC 7714, 11, as RFC 9335, A.2, shows it.
#![tactic(auto)]

pub mod keys;
pub mod words;
