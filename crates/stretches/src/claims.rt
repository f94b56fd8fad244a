// What is proved of the definitions themselves, carried by functions with nothing to do, so that a check names it.
ghost use Rattle.stretches.specs.Claims.{Stretches};

pub fn stretches_meet()
    ensures { Stretches }
{}
