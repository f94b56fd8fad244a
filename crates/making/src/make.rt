// A session made in the memory that is lent.
ghost use Rattle.std.specs.Prelude.{◌≡◌, ◌<◌, length, MatchResult};
ghost use Rattle.bits.specs.Refusals.{number_of};
ghost use Rattle.session.specs.Calls.{Leaves, make_call};
ghost use Rattle.session.specs.Making.{make_of};
ghost use Rattle.session.specs.Memory.{size, decode};
ghost use Rattle.suites.specs.Suites.{suite_of};
ghost use Rattle.making.specs.Steps.{make_number};

use crate::ids::flags;
use bits::arrays::{array, filled};
use bits::refusal::{Border, Refusal};
use session::layout::{FRONT, SIZE};
use setup_words::keys::session_keys;
use setup_words::words::front_words;
use suites::suite::Suite;

// A key and a salt of these lengths and a policy, judged. (The policy is still the number that was passed: which numbers are policies is told here.)
fn judge(suite: Suite, key: usize, salt: usize, policy: u64) -> Result<(), Refusal>
    ensures { MatchResult result (λ _. make_number suite key salt policy ≡ 0) (λ r. (make_number suite key salt policy ≡ number_of r) × (0 < number_of r)) }
{
    if key != 16 || salt != suite.salt_length() {
        return Err(Refusal::Keys);
    }
    if suite.last_policy() < policy {
        return Err(Refusal::Policy);
    }
    Ok(())
}

// A session of suite 0, AES_CM_128_HMAC_SHA1_80, or 1, AEAD_AES_128_GCM. Refused with 15 or 16, memory holds the unmade session, which takes no stream; refused with
// 100 or 103, it is as it was. (Policy, suite and what is given back are numbers, as C passes and takes them.)
pub fn make(
    session: &mut [u64],
    key: &[u8],
    salt: &[u8],
    policy: u64,
    ids: &[u8],
    suite: u32,
) -> u32
    ensures leaves { Leaves (make_call session.old key.now salt.now policy ids.now suite) result session.new }
    ensures session_after { length session.old ≡ size → suite < 2 → decode session.new ≡ (make_of (suite_of suite) key.now salt.now policy ids.now).session }
{
    if session.len() != SIZE {
        return u32::from(Border::Memory);
    }
    let unknown = 1 < suite;
    if unknown {
        return u32::from(Border::Suite);
    }
    session.fill(0);
    let suite = Suite::from(u64::from(suite));
    if let Err(refusal) = judge(suite, key.len(), salt.len(), policy) {
        return u32::from(refusal);
    }
    let key = array(key);
    let salt = filled(salt);
    let keys = session_keys(key, salt);
    let front = front_words(suite, policy, key, salt, flags(ids), keys);
    session[..FRONT].copy_from_slice(&front);
    0
}
