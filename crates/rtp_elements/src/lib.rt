// The elements of a header extension's block, one after another, and the definition of the mask over them.
// Follows RFC 8285 (4.1.2, 4.2, 4.3), RFC 6904 (3) and document 01.
#![tactic(auto)]

pub mod element;
