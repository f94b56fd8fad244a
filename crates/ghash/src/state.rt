// How far a hash has come.
ghost use Rattle.std.specs.Prelude.{◌<◌};

use gf128::block::Block;

// The value of the whole blocks so far, with the bytes of the block begun added to it; and how many bytes of that block came.
#[derive(Clone, Copy)]
pub struct Hash {
    pub value: Block,
    pub begun: usize,
    pub ghost in_block: { begun < 16 },
}
