// Lines of text that the programs are run on, the numbers and bytes in them, and parts of the lines that they write.
// Follows no document: a program's own file `stdin` says what its lines hold.
#![tactic(auto)]

pub mod arrays;
pub mod asked;
pub mod hex;
pub mod number;
pub mod outcome;
pub mod whole;
