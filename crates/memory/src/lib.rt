// Memory that a caller lends as 64-bit words: its parts, a part cut into fields by a layout, words copied, and bytes in words.
// Follows no paper: the laws here are what a session's layout rests on.
#![tactic(auto)]

pub mod words;
