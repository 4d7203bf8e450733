//! What the delivery of a message about objects keeps.

ghost use Rattle.law_counts_sums.specs.Kinds.{drop, fetch, fetched, moved, moving};
ghost use Rattle.law_counts_sums.specs.Laws.{Leaves, NumbersDiffer, OneState, OneTaskValue, ServersDiffer, SharesCounted};
ghost use Rattle.coherent_memory.specs.Coherent.{OneHome, OneOwner, Users};

/// A `fetch` is delivered: a copy of the object is served.
pub fn fetch_keeps()
    ensures home { Leaves fetch OneHome }
    ensures owner { Leaves fetch OneOwner }
    ensures states { Leaves fetch OneState }
    ensures users { Leaves fetch Users }
    ensures shares { Leaves fetch SharesCounted }
    ensures tasks { Leaves fetch OneTaskValue }
    ensures threads { Leaves fetch NumbersDiffer }
    ensures servers { Leaves fetch ServersDiffer }
{}

/// A `fetched` is delivered: the copy is filled, and the thread uses it.
pub fn fetched_keeps()
    ensures home { Leaves fetched OneHome }
    ensures owner { Leaves fetched OneOwner }
    ensures states { Leaves fetched OneState }
    ensures users { Leaves fetched Users }
    ensures shares { Leaves fetched SharesCounted }
    ensures tasks { Leaves fetched OneTaskValue }
    ensures threads { Leaves fetched NumbersDiffer }
    ensures servers { Leaves fetched ServersDiffer }
{}

/// A `move` is delivered: the object leaves, and its address is free or retired.
pub fn move_keeps()
    ensures home { Leaves moving OneHome }
    ensures owner { Leaves moving OneOwner }
    ensures states { Leaves moving OneState }
    ensures users { Leaves moving Users }
    ensures shares { Leaves moving SharesCounted }
    ensures tasks { Leaves moving OneTaskValue }
    ensures threads { Leaves moving NumbersDiffer }
    ensures servers { Leaves moving ServersDiffer }
{}

/// A `moved` is delivered: the object lies at a new address, and the pointer that waits gets its word.
pub fn moved_keeps()
    ensures home { Leaves moved OneHome }
    ensures owner { Leaves moved OneOwner }
    ensures states { Leaves moved OneState }
    ensures users { Leaves moved Users }
    ensures shares { Leaves moved SharesCounted }
    ensures tasks { Leaves moved OneTaskValue }
    ensures threads { Leaves moved NumbersDiffer }
    ensures servers { Leaves moved ServersDiffer }
{}

/// A `drop` is delivered: the object goes, and what it held is dropped.
pub fn drop_keeps()
    ensures home { Leaves drop OneHome }
    ensures owner { Leaves drop OneOwner }
    ensures states { Leaves drop OneState }
    ensures users { Leaves drop Users }
    ensures shares { Leaves drop SharesCounted }
    ensures tasks { Leaves drop OneTaskValue }
    ensures threads { Leaves drop NumbersDiffer }
    ensures servers { Leaves drop ServersDiffer }
{}
