// Theorems about the definitions: functions with nothing to do, so that the check names and counts them.
ghost use Rattle.wire.specs.Claims.{AnyCipher, SentIsGivenBack, SendingAlike, CryptexLooksAtNone};

// What sending does not refuse, receiving does not refuse with 2 to 7, and gives back: for any cipher that keeps four laws.
pub fn any_lawful_cipher_gives_back()
    ensures { AnyCipher }
{}

// And so does each suite: the packet comes back, with the empty block where Cryptex adds one, and no other byte changed.
pub fn sent_is_given_back()
    ensures { SentIsGivenBack }
{}

// Sending under 1 and 2 is the same.
pub fn sending_under_cryptex_is_the_same()
    ensures { SendingAlike }
{}

// Under 1 and 2 no refusal from 2 to 7 depends on contributing sources, block or payload.
pub fn cryptex_is_judged_by_its_header()
    ensures { CryptexLooksAtNone }
{}
