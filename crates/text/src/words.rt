// The words of a line, each separated from the next by one space.
ghost use Rattle.std.specs.Bool.{OnTrue};
ghost use Rattle.std.specs.Prelude.{◌<◌, length, Contains};

// A line of words: no carriage return, no space at either end, no two spaces in a row.
pub fn well_spaced(line: &[u8]) -> bool
    ensures no_return { OnTrue result (Contains line.now 13 → ⊥) }
    ensures a_word { OnTrue result (0 < length line.now) }
{
    !line.contains(&b'\r') && line.split(|b| *b == b' ').all(|word| !word.is_empty())
}
