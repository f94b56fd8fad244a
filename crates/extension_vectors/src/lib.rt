// Published vectors of header extensions, under the mask and found in a packet, each through the proved code and printed.
// Follows RFC 6904 (A.2), as `vectors` names it.
#![tactic(auto)]

pub mod extensions;
