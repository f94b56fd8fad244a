// The hash subkey (SP 800-38D, 7.1, step 1), which is made once for a session.
ghost use Rattle.std.specs.Prelude.{◌≡◌};
ghost use Rattle.gcm.specs.Gcm.{subkey_of};

use keystream::stretch::stretch;

// The cipher on a block of zeros: the first block of the keystream whose salt, SSRC and index are 0.
pub fn subkey(key: [u8; 16]) -> [u8; 16]
    ensures { result ≡ subkey_of key }
{
    let mut zeros = [0u8; 16];
    let _ = stretch(key, [0u8; 14], 0, 0, 0, &mut zeros);
    zeros
}
