// The policies and the two ways of document 01.
ghost use Rattle.std.specs.Prelude.{◌≡◌};
ghost use Rattle.policies.specs.Policies.{policy_number};

// The discriminant is the document's number.
#[derive(Clone, Copy, Debug, PartialEq, Eq)]
pub enum Policy {
    Plain = 0,
    Cryptex = 1,
    CryptexRequired = 2,
    Mask = 3,
}

impl From<Policy> for u64 {
    ghost from_gives = { λ policy n. n ≡ policy_number policy };

    fn from(policy: Policy) -> u64 {
        policy as u64
    }
}

#[derive(Clone, Copy, Debug, PartialEq, Eq)]
pub enum Way {
    Sending,
    Receiving,
}
