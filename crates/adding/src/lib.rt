// A stream added to a session in lent memory.
// Follows document 01, "Numbers given back", 15, 17 and 18.
#![tactic(auto)]

pub mod add;
