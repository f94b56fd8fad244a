// The front of every packet call: memory size, LENGTH, the header judged, ROOM, the place of the stream's record, and the packet's index.
// Follows document 01, "Numbers given back", 1 to 13, and document 02, CR 3.
#![tactic(auto)]

pub mod fields;
pub mod open;
