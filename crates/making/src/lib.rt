// A session made in lent memory.
// Follows document 01, "Numbers given back", 15 and 16, and document 02, CR 3.
#![tactic(auto)]

pub mod ids;
pub mod make;
