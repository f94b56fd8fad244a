// The session keys that are derived from a master key and salt.
ghost use Rattle.std.specs.Prelude.{◌≡◌};
ghost use Rattle.session.specs.Making.{keys_of};

use aes_cm::derivation::derive;
use gcm::subkey::subkey;
use hmac::key::key_states;
use packet_cipher::keys::Keys;

// The session keys, with the states of the authentication key in that key's place, and GCM's hash subkey.
pub fn session_keys(key: [u8; 16], salt: [u8; 14]) -> Keys
    ensures { result ≡ keys_of key salt }
{
    let derived = derive(key, salt);
    let auth = key_states(&derived.auth);
    let hash = subkey(derived.cipher);
    Keys {
        cipher: derived.cipher,
        salt: derived.salt,
        header_cipher: derived.header_cipher,
        header_salt: derived.header_salt,
        auth,
        hash,
    }
}
