// The accepted indices near the highest one, in a part of lent memory: a ring of b blocks of 64 indices, b stamps and then b words of bits.
// A block's place is its number modulo b. A stamp that differs says that another block stands there, so nothing is ever cleared or shifted.
// b is read off the part's length, so that one code serves every b. An odd last word is never reached.
ghost use Rattle.std.specs.Prelude.{◌≡◌, ◌%◌, ◌≤◌, ◌<◌, length};
ghost use Rattle.replay.specs.Window.{block_of, seen_in, mark_of};
ghost use Rattle.replay.specs.Track.{blocks_in, window_in, window_words};

// The place of a block among b. A function of its own, so that its callers see a number below b and no remainder by a variable.
fn place_of(number: u64, b: usize) -> usize
    requires { 1 ≤ b }
    ensures value { result ≡ number % b }
    ensures upper_bound { result < b }
{
    (number as usize) % b
}

// A ring has a block at least, two words. The bits of a block, none where another block stands in its place.
fn block(ring: &[u64], number: u64) -> u64
    requires { 2 ≤ length ring.now }
    ensures { result ≡ block_of (blocks_in ring.now) (window_in ring.now) number }
{
    let b = ring.len() / 2;
    let place = place_of(number, b);
    if ring[place] == number {
        ring[b + place]
    } else {
        0
    }
}

// Index was accepted.
#[tactic(auto, unfolding(crate::specs::Window::seen_in))]
pub fn seen(ring: &[u64], index: u64) -> bool
    requires { 2 ≤ length ring.now }
    ensures { result ≡ seen_in (blocks_in ring.now) (window_in ring.now) index }
{
    let bits = block(ring, index / 64);
    let k = index % 64;
    (bits >> k) % 2 == 1
}

// One index more: two words read, two written.
pub fn mark(ring: &mut [u64], index: u64)
    requires { 2 ≤ length ring.old }
    ensures { ring.new ≡ window_words (mark_of (blocks_in ring.old) (window_in ring.old) index) }
{
    let number = index / 64;
    let bits = block(ring, number);
    let k = index % 64;
    let b = ring.len() / 2;
    let place = place_of(number, b);
    ring[place] = number;
    ring[b + place] = bits | (1 << k);
}
