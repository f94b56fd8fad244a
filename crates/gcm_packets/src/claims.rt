// A theorem about the definitions: a function with nothing to do, so that the check names and counts it.
ghost use Rattle.gcm_packets.specs.Claims.{PacketsAreGcm};

// What is encrypted of a packet is the cipher text of algorithm 4, and the rest, which is the associated data, is sent as it is.
pub fn packets_are_gcm()
    ensures { PacketsAreGcm }
{}
