// The keystream part: any stretch of a packet's AES-CM keystream, from a starting byte, for a length.
// Follows document 02, CR 6, and RFC 3711, section 4.1.1.
#![tactic(auto)]

pub mod call;
pub mod stretch;
