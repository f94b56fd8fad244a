// What is claimed of every list of calls, each claim the contract of a function with nothing to do, so that the check names and counts it.
// Follows the demands, document 01 ("Lists of calls in demand 3") and document 02 (CR 2, CR 3).
#![tactic(auto)]

pub mod claims;
