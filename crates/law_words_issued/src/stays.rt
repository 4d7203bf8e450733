//! What was issued stays issued, after each step.

ghost use Rattle.law_words_issued.specs.stays.Issued.{BoxesKeepWhatWasIssued, CopiesHaveOldWords, StepsKeepWhatWasIssued};

/// From a coherent cluster in which few events were done: after the step of a thread each word that had been issued is issued, whether its instruction makes no object
/// (`steps`) or makes one, under a new word at an address that was free (`boxes`). And after each event from a sound cluster no word of a copy is new, nor one that a copy
/// holds (`copies`).
pub fn issued_words_stay()
    ensures steps { StepsKeepWhatWasIssued }
    ensures boxes { BoxesKeepWhatWasIssued }
    ensures copies { CopiesHaveOldWords }
{}
