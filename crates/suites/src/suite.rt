// The suites, and the numbers that each of them sets.
ghost use Rattle.std.specs.Prelude.{◌≡◌, ◌≤◌};
ghost use Rattle.suites.specs.Suites.{suite_number, suite_of, salt_length_of, tag_length_of, last_policy_of};

// AES_CM_128_HMAC_SHA1_80 of RFC 3711, and AEAD_AES_128_GCM of RFC 7714. The discriminant is the number that callers pass.
#[derive(Clone, Copy, Debug, PartialEq, Eq)]
pub enum Suite {
    CmHmac = 0,
    Gcm = 1,
}

impl From<Suite> for u64 {
    ghost from_gives = { λ suite n. (n ≡ suite_number suite) × (n ≤ 1) };

    fn from(suite: Suite) -> u64 {
        suite as u64
    }
}

// 0 is the first suite, and any other number the second.
impl From<u64> for Suite {
    ghost from_gives = { λ n suite. suite ≡ suite_of n };

    fn from(number: u64) -> Suite {
        match number {
            0 => Suite::CmHmac,
            _ => Suite::Gcm,
        }
    }
}

impl Suite {
    // The bytes of a master salt and of a session salt.
    pub fn salt_length(self) -> usize
        ensures { result ≡ salt_length_of self }
    {
        match self {
            Suite::CmHmac => 14,
            Suite::Gcm => 12,
        }
    }

    // The bytes of an authentication tag.
    pub fn tag_length(self) -> usize
        ensures { (result ≡ tag_length_of self) × (result ≤ 16) }
    {
        match self {
            Suite::CmHmac => 10,
            Suite::Gcm => 16,
        }
    }

    // The last policy that there is with the suite.
    pub fn last_policy(self) -> u64
        ensures { result ≡ last_policy_of self }
    {
        match self {
            Suite::CmHmac => 3,
            Suite::Gcm => 2,
        }
    }
}
