// The functions and constants of SHA-1 on words (FIPS 180-4, 4.1.1 and 4.2.1).
ghost use Rattle.std.specs.Prelude.{◌≡◌, ℕ, ◌/◌};
ghost use Rattle.sha1_words.specs.Words.{ch_of, parity_of, maj_of, f_of, k_of};
ghost use Rattle.sha1_words.specs.Stages.{stage_number};

// The stages of twenty steps by which f_t and K_t go: steps 0 to 19, 20 to 39, 40 to 59 and 60 to 79.
#[derive(Clone, Copy)]
pub enum Stage {
    First,
    Second,
    Third,
    Fourth,
}

// Ch, in three operations instead of the four of its definition.
fn ch(x: u32, y: u32, z: u32) -> u32
    ensures { result ≡ ch_of x y z }
{
    z ^ (x & (y ^ z))
}

fn parity(x: u32, y: u32, z: u32) -> u32
    ensures { result ≡ parity_of x y z }
{
    x ^ y ^ z
}

// Maj, in four operations instead of five.
fn maj(x: u32, y: u32, z: u32) -> u32
    ensures { result ≡ maj_of x y z }
{
    (x & y) ^ (z & (x ^ y))
}

impl Stage {
    // f_t in the stage of t.
    pub fn f(self, x: u32, y: u32, z: u32) -> u32
        ensures { (t : ℕ) → t / 20 ≡ stage_number self → result ≡ f_of t x y z }
    {
        match self {
            Stage::First => ch(x, y, z),
            Stage::Second => parity(x, y, z),
            Stage::Third => maj(x, y, z),
            Stage::Fourth => parity(x, y, z),
        }
    }

    // K_t in the stage of t.
    pub fn k(self) -> u32
        ensures { (t : ℕ) → t / 20 ≡ stage_number self → result ≡ k_of t }
    {
        match self {
            Stage::First => 0x5a827999,
            Stage::Second => 0x6ed9eba1,
            Stage::Third => 0x8f1bbcdc,
            Stage::Fourth => 0xca62c1d6,
        }
    }
}
