// A packet whose stream and index are known: the cores of the packet calls, on lent session memory.
// Follows document 01, "Numbers given back", 14 and what a result is; RFC 3711 3.3, RFC 7714 8, RFC 9335 5 and 6, RFC 6904 3 through the crates below.
#![tactic(auto)]

pub mod stream;
