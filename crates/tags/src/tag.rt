// Comparing authentication tags.
ghost use Rattle.std.specs.Prelude.{◌≡◌, ◌^◌, ◌<◌, ◌≤◌, length};
ghost use Rattle.tags.specs.Tag.{same_of};

// Whether two tags are equal. Every byte is looked at, wherever the first difference is. The differences are summed: joined by OR, the compiler takes
// them apart into comparisons that stop at the first (tests/tag_time).
pub fn same(a: &[u8], b: &[u8]) -> bool
    requires { length a.now < 2 ^ 56 }
    ensures { result ≡ same_of a.now b.now }
{
    if a.len() != b.len() {
        return false;
    }
    let mut sum: u64 = 0;
    for (x, y) in a.iter().zip(b) {
        sum += u64::from(*x ^ *y);
    }
    sum == 0
}
