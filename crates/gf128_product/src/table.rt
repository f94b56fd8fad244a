// The look-up table of a hash subkey. A caller makes it once and lends it.
ghost use Rattle.gf128.specs.Steps.{value_of};
ghost use Rattle.gf128_product.specs.Steps.{Multiples, KeyTable};

use crate::moves::moved;
use gf128::block::Block;

// The sixteen multiples of v: their high halves, then their low ones. (Written out: each is another sum.)
fn multiples(v: Block) -> [u64; 32]
    ensures { Multiples (value_of v) result }
{
    let m4 = v.next();
    let m2 = m4.next();
    let m1 = m2.next();
    let m3 = m2.xor(m1);
    let m5 = m4.xor(m1);
    let m6 = m4.xor(m2);
    let m7 = m4.xor(m3);
    let m9 = v.xor(m1);
    let m10 = v.xor(m2);
    let m11 = v.xor(m3);
    let m12 = v.xor(m4);
    let m13 = v.xor(m5);
    let m14 = v.xor(m6);
    let m15 = v.xor(m7);
    [
        0, m1.high, m2.high, m3.high, m4.high, m5.high, m6.high, m7.high, v.high, m9.high,
        m10.high, m11.high, m12.high, m13.high, m14.high, m15.high, 0, m1.low, m2.low, m3.low,
        m4.low, m5.low, m6.low, m7.low, v.low, m9.low, m10.low, m11.low, m12.low, m13.low, m14.low,
        m15.low,
    ]
}

// The table of a hash subkey: its multiples, and those of the subkey moved by 4, 8 and so on up to 28 bits. (Written out, as what stands in the table is.)
pub fn key_table(h: Block) -> [[u64; 32]; 8]
    ensures { KeyTable (value_of h) result }
{
    let h1 = moved(h, 4);
    let h2 = moved(h1, 4);
    let h3 = moved(h2, 4);
    let h4 = moved(h3, 4);
    let h5 = moved(h4, 4);
    let h6 = moved(h5, 4);
    let h7 = moved(h6, 4);
    [
        multiples(h),
        multiples(h1),
        multiples(h2),
        multiples(h3),
        multiples(h4),
        multiples(h5),
        multiples(h6),
        multiples(h7),
    ]
}
