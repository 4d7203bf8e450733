//! Laws of coloured heaps and of journals.

ghost use Rattle.coloured_heap.specs.Broken.{ReachAndDrivers, RulesRefuse};
ghost use Rattle.coloured_heap.specs.Examples.{JournalsCompute};
ghost use Rattle.coloured_heap.specs.Same.{SameIsEquivalence, SameStates};
ghost use Rattle.coloured_heap.specs.Laws.{ActsGoOn, DrivenIsLegal, FirstBreaks, GoesOn, IssuedOnce, KindsAddUp, LegalHasState, ListedOnce, ReachedIsLegal, SendNothing, StoresGoOn};

/// Journals of whole runs: they are legal and driven, they reach what they load and store, and their figures are those of the runs.
pub fn journals_compute()
    ensures { JournalsCompute }
{}

/// For each act, entries that its rule allows, and entries that it refuses.
pub fn rules_refuse()
    ensures { RulesRefuse }
{}

/// Loads and stores that are reached, and others that aren't; what drivers do, and what they don't.
pub fn reach_and_drivers()
    ensures { ReachAndDrivers }
{}

/// Which acts send nothing, whatever copies there are.
pub fn send_nothing()
    ensures { SendNothing }
{}

/// How a journal, an entry's acts and its stores go on, where a journal has a state after it, and which entry is the first that breaks a rule.
pub fn first_breaks()
    ensures goes_on { GoesOn }
    ensures acts { ActsGoOn }
    ensures stores { StoresGoOn }
    ensures has_state { LegalHasState }
    ensures first { FirstBreaks }
{}

/// A legal journal issues no word twice, and the lists of the state after it have nothing twice.
pub fn listed_once()
    ensures issued { IssuedOnce }
    ensures listed { ListedOnce }
{}

/// Journals that are driven, and journals that reach what they load and store, are legal.
pub fn all_legal()
    ensures driven { DrivenIsLegal }
    ensures reached { ReachedIsLegal }
{}

/// States that answer the same of each name and word allow the same acts, and stay the same after acts, stores and new mutexes; so
/// entries and journals are legal from both or from neither, and reach what they load and store from both or from neither.
pub fn same_states()
    ensures equivalence { SameIsEquivalence }
    ensures common { SameStates }
{}

/// The messages between different servers are counted once, each under its kind.
pub fn kinds_add_up()
    ensures { KindsAddUp }
{}
