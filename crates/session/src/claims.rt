// What is claimed of session memory, carried by a function with nothing to do, so that the check names and counts it.
ghost use Rattle.session.specs.RoundTrip.{SessionsLast};

// A session written to memory and read back is the same, and memory that holds none is the unmade session.
pub fn sessions_last()
    ensures { SessionsLast }
{}
