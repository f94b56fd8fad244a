// A line that asks for something: its name, and behind a colon and a space what is given.
ghost use Rattle.std.specs.Prelude.{◌≡◌};
ghost use Rattle.std.specs.List.{position};
ghost use Rattle.lines.specs.Asked.{is_colon, IsCut};

use crate::number::last_two;

#[derive(Clone, Copy)]
pub struct Asked<'a> {
    pub name: &'a [u8],
    pub given: &'a [u8],
}

fn colon(line: &[u8]) -> Option<usize>
    ensures { result ≡ position is_colon line.now }
{
    line.iter().position(|b| *b == b':')
}

impl<'a> From<&'a [u8]> for Asked<'a> {
    ghost from_gives = { λ line asked. IsCut line.now asked.name.now asked.given.now };

    fn from(line: &'a [u8]) -> Self {
        let (name, rest) = line.split_at(colon(line).unwrap_or(line.len()));
        Asked {
            name,
            given: rest.get(2..).unwrap_or_default(),
        }
    }
}

impl Asked<'_> {
    // The last two numbers of the name.
    pub fn numbers(&self) -> (u64, u64) {
        last_two(self.name)
    }
}
