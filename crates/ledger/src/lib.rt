// The ledger of document 01, and the claims over lists of arrivals: that the memory of accepted indices answers as the ledger does.
// Follows document 01, "Lists of calls in demand 3" and "Index and record", and RFC 3711, sections 3.3.1 and 3.3.2.
#![tactic(auto)]

pub mod claims;
