//! Each word that stands anywhere was issued.

ghost use Rattle.law_walks_own.specs.Below.coherent_memory.Coherent.{are_issued};
ghost use Rattle.law_words_issued.specs.stands.Issuing.{DeliveriesKeepIssued, StepsKeepIssued};
ghost use Rattle.law_walks_own.specs.Below.law_counts_waiting.waits.Steady.{EachSteadyEventKeeps};

/// Each word that stands anywhere was issued, after each event from a sound cluster in which no object comes or goes and no pointer gets another word.
pub fn steady_events_keep_issued()
    ensures { EachSteadyEventKeeps are_issued }
{}

/// So it is after each other event of a sound cluster that issues no word, where it leaves objects their words: a step whose place is ready as it is, at an instruction that
/// makes nothing new, and the delivery of whatever message but one with which an object lands.
pub fn events_keep_issued()
    ensures steps { StepsKeepIssued }
    ensures deliveries { DeliveriesKeepIssued }
{}
