// What the cipher and the tag of one packet are made with.
ghost use Rattle.std.specs.Prelude.{◌^◌, ◌<◌};

use crate::keys::Keys;
use policies::policy::Policy;
use suites::suite::Suite;

// The cryptographic context (RFC 3711, 3.2.3) as far as one packet needs it, with the packet's own SSRC and index. The index has 48 bits (3.3.1).
#[derive(Clone, Copy)]
pub struct Context {
    pub suite: Suite,
    pub keys: Keys,
    pub policy: Policy,
    pub ids: [u64; 4],
    pub ssrc: u32,
    pub index: u64,
    pub ghost index_bound: { index < 2 ^ 48 },
}
