// What is claimed of the definitions, each carried by a function with nothing to do.
ghost use Rattle.ledger.specs.Claims.{GuessIsRight, StepsAreSound};
ghost use Rattle.ledger.specs.Ledger.{FollowsTheLedger};

// Highest and distance make the index; the distance's range; a packet under 32,768 away is guessed right.
pub fn guess_is_right()
    ensures { GuessIsRight }
{}

// Each index that a step gives has 48 bits and ends in the sequence number, a sender's grows, and a refusal leaves the state.
pub fn steps_are_sound()
    ensures { StepsAreSound }
{}

// Over every list of arrivals the memory answers as the ledger of document 01 does, for every width, and so does a receiver whose
// guesses are right.
pub fn follows_the_ledger()
    ensures { FollowsTheLedger }
{}
