// Session keys from the master key and salt (RFC 3711, 4.3).
ghost use Rattle.std.specs.Prelude.{◌≡◌, ◌≤◌, length, replicate};
ghost use Rattle.stretches.specs.Stretch.{keystream_end};
ghost use Rattle.aes_cm.specs.Derivation.{derived_of, session_keys_of};

use keystream::stretch::stretch;

#[derive(Clone, Copy)]
pub struct SessionKeys {
    pub cipher: [u8; 16],
    pub auth: [u8; 20],
    pub salt: [u8; 14],
    pub header_cipher: [u8; 16],
    pub header_salt: [u8; 14],
}

// What is derived for a label goes onto a buffer of zeros, a stretch from the first byte on. (RFC 3711, 4.3.2, and RFC 6904, 4.1, name what is derived by the label's number alone.)
fn derived(key: [u8; 16], salt: [u8; 14], label: u8, zeros: &mut [u8])
    requires { (zeros.old ≡ replicate (length zeros.old) 0) × (length zeros.old ≤ keystream_end) }
    ensures { zeros.new ≡ derived_of key salt label (length zeros.old) }
{
    let mut x = salt;
    x[7] ^= label;
    let _ = stretch(key, x, 0, 0, 0, zeros);
}

// The five session keys.
pub fn derive(key: [u8; 16], salt: [u8; 14]) -> SessionKeys
    ensures { result ≡ session_keys_of key salt }
{
    let mut cipher = [0u8; 16];
    let mut auth = [0u8; 20];
    let mut session_salt = [0u8; 14];
    let mut header_cipher = [0u8; 16];
    let mut header_salt = [0u8; 14];
    derived(key, salt, 0, &mut cipher);
    derived(key, salt, 1, &mut auth);
    derived(key, salt, 2, &mut session_salt);
    derived(key, salt, 6, &mut header_cipher);
    derived(key, salt, 7, &mut header_salt);
    SessionKeys {
        cipher,
        auth,
        salt: session_salt,
        header_cipher,
        header_salt,
    }
}
