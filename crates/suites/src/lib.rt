// The suites that a session can have, with what each of them sets: the lengths of salt and tag, and the policies.
// Follows document 02 (CR 3), RFC 3711 and RFC 7714.
#![tactic(auto)]

pub mod suite;
