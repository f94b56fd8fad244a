// The keys that one packet needs.
use hmac::key::KeyStates;

// Session keys, with the states of the authentication key in that key's place: they are made once for each session, and so is GCM's hash subkey. Each suite
// uses those that it has; a salt of twelve bytes is the first twelve.
#[derive(Clone, Copy)]
pub struct Keys {
    pub cipher: [u8; 16],
    pub salt: [u8; 14],
    pub header_cipher: [u8; 16],
    pub header_salt: [u8; 14],
    pub auth: KeyStates,
    pub hash: [u8; 16],
}
