//! What the eviction of a copy keeps, and what the migration of a thread keeps.

ghost use Rattle.law_counts_sums.specs.Kinds.{evicts, migrates};
ghost use Rattle.law_counts_sums.specs.Laws.{Leaves, NumbersDiffer, OneState, OneTaskValue, ServersDiffer, SharesCounted};
ghost use Rattle.coherent_memory.specs.Coherent.{OneHome, OneOwner, Users};

/// A copy that nobody uses goes.
pub fn eviction_keeps()
    ensures home { Leaves evicts OneHome }
    ensures owner { Leaves evicts OneOwner }
    ensures states { Leaves evicts OneState }
    ensures users { Leaves evicts Users }
    ensures shares { Leaves evicts SharesCounted }
    ensures tasks { Leaves evicts OneTaskValue }
    ensures threads { Leaves evicts NumbersDiffer }
    ensures servers { Leaves evicts ServersDiffer }
{}

/// A thread leaves for another server, without its uses.
pub fn migration_keeps()
    ensures home { Leaves migrates OneHome }
    ensures owner { Leaves migrates OneOwner }
    ensures states { Leaves migrates OneState }
    ensures users { Leaves migrates Users }
    ensures shares { Leaves migrates SharesCounted }
    ensures tasks { Leaves migrates OneTaskValue }
    ensures threads { Leaves migrates NumbersDiffer }
    ensures servers { Leaves migrates ServersDiffer }
{}
