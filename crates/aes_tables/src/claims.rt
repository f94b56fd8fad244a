// What is proved of the definitions themselves, carried by a function with nothing to do, so that a check names it.
ghost use Rattle.aes_tables.specs.Claims.{Inverses};

pub fn inverses_are_inverses()
    ensures { Inverses }
{}
