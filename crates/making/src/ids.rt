// The set of ids that a session keeps.
ghost use Rattle.std.specs.Prelude.{◌≡◌};
ghost use Rattle.session.specs.Making.{ids_of};
ghost use Rattle.making.specs.Steps.{with_id};

// A word of the set with one id more: bit id % 64, which may be set already. A 0 is ignored.
fn with_id(word: u64, id: u8) -> u64
    ensures { result ≡ with_id word id }
{
    if id == 0 {
        word
    } else {
        word | (1 << (id % 64))
    }
}

// The ids from 1 to 255 as the bits of four words.
pub fn flags(ids: &[u8]) -> [u64; 4]
    ensures { result ≡ ids_of ids.now }
{
    let mut set = [0u64; 4];
    for &id in ids {
        let place = usize::from(id) / 64;
        set[place] = with_id(set[place], id);
    }
    set
}
