// Published vectors of the cipher and the hash, each through the proved code and printed.
// Follows FIPS 197, SP 800-38A, FIPS 180, RFC 2202, RFC 3711 (B.2, B.3), RFC 6904 (A.1) and the submission of GCM to NIST, as `vectors` names them.
#![tactic(auto)]

pub mod ciphers;
pub mod hashes;
pub mod sealed;
