// One block (FIPS 180-4, 6.1.2). Sixteen words of the message schedule are kept, and each further one is made as it comes.
ghost use Rattle.std.specs.Prelude.{◌≡◌, ℕ, ◌+◌, ◌*◌, ◌/◌, ◌<◌, ◌≤◌, List, length};
ghost use Rattle.sha1_words.specs.Stages.{stage_number};
ghost use Rattle.sha1_compress.specs.Hash.{schedule_of, step_with, step_of, steps_of, sum_of, compress_of};
ghost use Rattle.sha1_compress.specs.Steps.{made_of, working_at, Kept};

use sha1_words::word::Stage;

// A step on the working variables a to e, with f_t, K_t and W_t.
fn step(s: [u32; 5], f: u32, k: u32, w: u32) -> [u32; 5]
    ensures { result ≡ step_with f k s w }
{
    let [a, b, c, d, e] = s;
    let t = a
        .rotate_left(5)
        .wrapping_add(f)
        .wrapping_add(e)
        .wrapping_add(k)
        .wrapping_add(w);
    [t, a, b.rotate_left(30), c, d]
}

// The next word is made: from words t - 16 to t - 1 of a schedule to words t - 15 to t.
// (The array is written out here: with a helper that takes it the compiler copies it, and hashing runs at a quarter of the speed.)
fn shift(w: [u32; 16]) -> [u32; 16]
    ensures { result ≡ made_of w }
{
    let x = (w[13] ^ w[8] ^ w[2] ^ w[0]).rotate_left(1);
    [
        w[1], w[2], w[3], w[4], w[5], w[6], w[7], w[8], w[9], w[10], w[11], w[12], w[13], w[14],
        w[15], x,
    ]
}

// A step with the word w. The stage, t / 20, settles f_t and K_t.
fn stepped(stage: Stage, s: [u32; 5], w: u32) -> [u32; 5]
    ensures { (t : ℕ) → t / 20 ≡ stage_number stage → result ≡ step_of s t w }
{
    step(s, stage.f(s[1], s[2], s[3]), stage.k(), w)
}

// The working variables added to the hash value before the block, as FIPS 180-4 writes it (6.1.2, step 4).
fn sum(s: [u32; 5], h: [u32; 5]) -> [u32; 5]
    ensures { result ≡ sum_of s h }
{
    [
        s[0].wrapping_add(h[0]),
        s[1].wrapping_add(h[1]),
        s[2].wrapping_add(h[2]),
        s[3].wrapping_add(h[3]),
        s[4].wrapping_add(h[4]),
    ]
}

// The working variables, and the sixteen words kept.
#[derive(Clone, Copy)]
pub struct Working {
    pub state: [u32; 5],
    pub words: [u32; 16],
}

impl Working {
    // Step t with word t, the first of those kept; and word t + 16 is made.
    fn turn(self, stage: Stage) -> Working
        ensures { (h m : List ℕ) (t : ℕ) → length m ≡ 16 → t < 64 → t / 20 ≡ stage_number stage → self ≡ working_at h m t → result ≡ working_at h m (t + 1) }
    {
        let w = self.words;
        let u = stepped(stage, self.state, w[0]);
        let v = shift(w);
        Working { state: u, words: v }
    }

    // Steps t to t + 3, all in one stage: four turns.
    // (Written out, here and in `twenty`: counted by a `for` the compiler keeps the loop, and a message of 1,200 bytes takes 42,900 instructions in place of 29,700.)
    fn four(self, stage: Stage) -> Working
        ensures { (h m : List ℕ) (t : ℕ) → length m ≡ 16 → t + 3 < 64 → t / 20 ≡ stage_number stage → (t + 3) / 20 ≡ stage_number stage → self ≡ working_at h m t → result ≡ working_at h m (t + 4) }
    {
        let a = self.turn(stage);
        let b = a.turn(stage);
        let c = b.turn(stage);
        c.turn(stage)
    }

    // The twenty steps of one of the first three stages.
    fn twenty(self, stage: Stage) -> Working
        ensures { (h m : List ℕ) → length m ≡ 16 → stage_number stage ≤ 2 → self ≡ working_at h m (20 * stage_number stage) → result ≡ working_at h m (20 * stage_number stage + 20) }
    {
        let a = self.four(stage);
        let b = a.four(stage);
        let c = b.four(stage);
        let d = c.four(stage);
        d.four(stage)
    }

    // Steps 64 to 79. All words are made, and each is taken where it stands. (By way of `u`: no proof is made yet of a call whose array goes straight into `s`.)
    fn last(self) -> [u32; 5]
        ensures { (h m : List ℕ) → length m ≡ 16 → self ≡ working_at h m 64 → result ≡ steps_of (schedule_of m 64) h 80 }
    {
        let mut s = self.state;
        for w in &self.words {
            let u = stepped(Stage::Fourth, s, *w);
            s = u;
        }
        s
    }
}

// The hash value after a block of sixteen words: its schedule has 64 words more, and these are made.
pub fn compress(h: [u32; 5], m: [u32; 16]) -> [u32; 5]
    ensures { result ≡ compress_of h m }
{
    let r = Working { state: h, words: m };
    let a = r.twenty(Stage::First);
    let b = a.twenty(Stage::Second);
    let c = b.twenty(Stage::Third);
    let d = c.four(Stage::Fourth);
    sum(d.last(), h)
}

pub fn kept_words_are_the_schedules()
    ensures { Kept }
{}
