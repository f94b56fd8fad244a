// The answer of a step, the packet's index or a refusal, in document 01's terms.
ghost use Rattle.std.specs.Prelude.{◌≡◌};
ghost use Rattle.replay.specs.Answers.{told_of};

use bits::refusal::Refusal;

// The answer in document 01's terms: its number, and the index, which is 0 with a refusal. Two numbers and no `Result`, since that document's ledger
// lists its answers so.
#[derive(Clone, Copy)]
pub struct Told {
    pub number: u8,
    pub index: u64,
}

pub fn tell(judged: Result<u64, Refusal>) -> Told
    ensures { result ≡ told_of judged }
{
    match judged {
        Ok(index) => Told { number: 0, index },
        Err(refusal) => Told {
            number: u8::from(refusal),
            index: 0,
        },
    }
}
