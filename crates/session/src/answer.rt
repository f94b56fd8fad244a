// What the calls give back.
ghost use Rattle.std.specs.Prelude.{◌≡◌};
ghost use Rattle.session.specs.Answers.{answer_of};

use bits::refusal::Refusal;

// 0 or the number of a refusal, and the packet's new length: 0 with a refusal. Two numbers, as C takes it.
#[repr(C)]
#[derive(Clone, Copy)]
pub struct Answer {
    pub number: u32,
    pub length: usize,
}

impl From<Result<usize, Refusal>> for Answer {
    ghost from_gives = { λ answer given. given ≡ answer_of answer };

    fn from(answer: Result<usize, Refusal>) -> Answer {
        match answer {
            Ok(length) => Answer { number: 0, length },
            Err(refusal) => Answer {
                number: u32::from(refusal),
                length: 0,
            },
        }
    }
}
