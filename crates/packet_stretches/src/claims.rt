// Theorems about the definitions: functions with nothing to do, so that the check names and counts them.
ghost use Rattle.packet_stretches.specs.Claims.{PacketsAreStretches, KeysAreStretches};

// With the first suite payload, Cryptex and mask are stretches of the keystream part, and none of them is ever LARGE.
pub fn packets_are_stretches()
    ensures { PacketsAreStretches }
{}

// And so are the session keys.
pub fn keys_are_stretches()
    ensures { KeysAreStretches }
{}
