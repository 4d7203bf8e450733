//! What an event of a sound cluster keeps, of whatever kind it is.

ghost use Rattle.law_counts_sums.specs.Laws.{AskingLeavesTaskValues, EachEventHandedOver, EachEventLeaves, EachEventSends, NotedAtHome, NotedGoOn, NumbersDiffer, OneAnswer, OneResult, OneState, OneTaskValue, OthersLeaveTaskValues, JoinsSpendOne, PairsNoted, ReleasesSpendOne, ServersDiffer, SharesCounted, SharesLeaveTaskValues, SpawnsMakeOne, TaskValuesOwed};
ghost use Rattle.coherent_memory.specs.Coherent.{OneHome, OneOwner, Users};

/// Whatever is delivered, stepped, evicted or migrated.
pub fn each_event_keeps()
    ensures home { EachEventLeaves OneHome }
    ensures owner { EachEventLeaves OneOwner }
    ensures states { EachEventLeaves OneState }
    ensures users { EachEventLeaves Users }
    ensures shares { EachEventLeaves SharesCounted }
    ensures tasks { EachEventLeaves OneTaskValue }
    ensures threads { EachEventLeaves NumbersDiffer }
    ensures servers { EachEventLeaves ServersDiffer }
    ensures answers { EachEventLeaves OneAnswer }
    ensures pairs { EachEventLeaves PairsNoted }
    ensures going { EachEventLeaves NotedGoOn }
    ensures homes { EachEventLeaves NotedAtHome }
    ensures results { EachEventLeaves OneResult }
    ensures owed { EachEventLeaves TaskValuesOwed }
{}

/// The messages of each event go to servers of the run.
pub fn each_event_sends()
    ensures { EachEventSends }
{}

/// Whatever is done, once its messages are handed over.
pub fn each_event_handed_over()
    ensures home { EachEventHandedOver OneHome }
    ensures owner { EachEventHandedOver OneOwner }
    ensures states { EachEventHandedOver OneState }
    ensures users { EachEventHandedOver Users }
    ensures shares { EachEventHandedOver SharesCounted }
    ensures tasks { EachEventHandedOver OneTaskValue }
    ensures threads { EachEventHandedOver NumbersDiffer }
    ensures servers { EachEventHandedOver ServersDiffer }
    ensures answers { EachEventHandedOver OneAnswer }
    ensures pairs { EachEventHandedOver PairsNoted }
    ensures going { EachEventHandedOver NotedGoOn }
    ensures homes { EachEventHandedOver NotedAtHome }
    ensures results { EachEventHandedOver OneResult }
    ensures owed { EachEventHandedOver TaskValuesOwed }
{}

/// How many task values of each thread an event leaves: a spawn makes one of its thread, a join that is done spends one of its operand and the delivery of a
/// task's `release` one of it, and every other event leaves as many as there were.
pub fn task_values_counted()
    ensures others { OthersLeaveTaskValues }
    ensures spawns { SpawnsMakeOne }
    ensures joins { JoinsSpendOne }
    ensures releases { ReleasesSpendOne }
    ensures shares { SharesLeaveTaskValues }
    ensures asking { AskingLeavesTaskValues }
{}
