// What more than one crate cites: choice by a test, big-endian numbers, keys as arrays, exclusive or, the rule of a table, refusals.
// Follows document 01 for the refusals and RFC 3550, section 4, for the byte order; the rest is arithmetic.
#![tactic(auto)]

pub mod arrays;
pub mod big_endian;
pub mod portion;
pub mod refusal;
