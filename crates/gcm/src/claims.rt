// What is proved of the definitions themselves, carried by functions with nothing to do, so that a check names it.
ghost use Rattle.gcm.specs.Claims.{InPlace, OneStart};

pub fn in_place_is_algorithm_4()
    ensures { InPlace }
{}

pub fn one_start_serves()
    ensures { OneStart }
{}
