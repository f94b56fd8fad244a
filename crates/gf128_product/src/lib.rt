// The product of a block with a hash subkey, by a look-up table.
// Follows NIST SP 800-38D, section 6.3.
#![tactic(auto)]

pub mod moves;
pub mod product;
pub mod table;
