// Demands 1 to 3 over lists of calls, on sessions and on the memory that holds them; what holds of every session; what required Cryptex accepts; document
// 01's sums.
ghost use Rattle.theorems.specs.Answers.{OneAnswerEach};
ghost use Rattle.theorems.specs.DemandThree.{DemandThree, DemandThreeInMemory};
ghost use Rattle.theorems.specs.Example.{PremisesAreMet, HollowProgramsDiffer};
ghost use Rattle.theorems.specs.Memories.{AnswersAsSessions};
ghost use Rattle.theorems.specs.Required.{RequiredMeansRequired};
ghost use Rattle.theorems.specs.Sent.{SentUnderItsIndex};
ghost use Rattle.theorems.specs.Sums.{SumsHold};
ghost use Rattle.theorems.specs.Tags.{TagsAreTheStandards};
ghost use Rattle.theorems.specs.Sessions.{SessionsAreSound, EqualSetsEqualSessions, WordsAreTheSet};

// Demand 1: a call gives its result or one of its numbers, and a refusal changes nothing.
pub fn one_answer_each()
    ensures { OneAnswerEach }
{}

// A made session has the keys of its master key and salt and a policy that its suite takes, an unmade one is the fixed one; each has at most 32 streams and no SSRC twice.
pub fn sessions_are_sound()
    ensures { SessionsAreSound }
{}

// Order, repeats and zeros in the list of ids do not matter.
pub fn equal_sets_give_equal_sessions()
    ensures { EqualSetsEqualSessions }
{}

// The four words of a session's ids are the set that it was made from.
pub fn words_are_the_set()
    ensures { WordsAreTheSet }
{}

// Demand 2 over lists: the bytes that a stream sends are the standards', under the index that document 01 gives each packet.
pub fn packets_are_sent_under_their_index()
    ensures { SentUnderItsIndex }
{}

// And each ends with its tag, which is HMAC-SHA1's or GCM's under the derived keys.
pub fn tags_are_the_standards()
    ensures { TagsAreTheStandards }
{}

// Required Cryptex: whatever unprotect accepts came with contributors and extension encrypted, or had neither.
pub fn required_means_required()
    ensures { RequiredMeansRequired }
{}

// Demand 3: each arrival of a stream is given back right, or refused as old or repeated, as the ledger says; and two neighbouring packet calls for
// different streams can change places.
pub fn demand_three_holds()
    ensures { DemandThree }
{}

// Calls on memory are answered as calls on the sessions that it holds, over whole lists.
pub fn memories_answer_as_sessions()
    ensures { AnswersAsSessions }
{}

// Demand 3 for the calls on lent memory.
pub fn demand_three_holds_in_memory()
    ensures { DemandThreeInMemory }
{}

// Document 01's sums, G1 to G7, S1, S2 and M1 to M4.
pub fn sums_hold()
    ensures { SumsHold }
{}

// A list of calls meets the premises of demand 3.
pub fn premises_are_met()
    ensures { PremisesAreMet }
{}

// In it, four hollow programs would answer otherwise: one that refuses everything, one with a fixed answer, one that leaves the buffer, one that is right
// only for a stream's first packet.
pub fn hollow_programs_differ()
    ensures { HollowProgramsDiffer }
{}
