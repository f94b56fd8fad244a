// The line of the call script on elements of a header extension, answered: `find`.
// Follows docs/CALLS.md.
#![tactic(auto)]

pub mod find;
