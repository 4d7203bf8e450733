//! What the delivery of a message about mutexes, or of a `release`, keeps.

ghost use Rattle.law_counts_sums.specs.Kinds.{asks_dup, asks_lock, dupped, granted, released, unlocked};
ghost use Rattle.law_counts_sums.specs.Laws.{Leaves, NumbersDiffer, OneState, OneTaskValue, ServersDiffer, SharesCounted};
ghost use Rattle.coherent_memory.specs.Coherent.{OneHome, OneOwner, Users};

/// A `lock` is delivered: the content is granted, or the thread waits in the queue.
pub fn lock_asked_keeps()
    ensures home { Leaves asks_lock OneHome }
    ensures owner { Leaves asks_lock OneOwner }
    ensures states { Leaves asks_lock OneState }
    ensures users { Leaves asks_lock Users }
    ensures shares { Leaves asks_lock SharesCounted }
    ensures tasks { Leaves asks_lock OneTaskValue }
    ensures threads { Leaves asks_lock NumbersDiffer }
    ensures servers { Leaves asks_lock ServersDiffer }
{}

/// A `granted` is delivered: the content is the gift of the thread.
pub fn granted_keeps()
    ensures home { Leaves granted OneHome }
    ensures owner { Leaves granted OneOwner }
    ensures states { Leaves granted OneState }
    ensures users { Leaves granted Users }
    ensures shares { Leaves granted SharesCounted }
    ensures tasks { Leaves granted OneTaskValue }
    ensures threads { Leaves granted NumbersDiffer }
    ensures servers { Leaves granted ServersDiffer }
{}

/// An `unlock` is delivered: the content is granted again, stays, or is dropped.
pub fn unlocked_keeps()
    ensures home { Leaves unlocked OneHome }
    ensures owner { Leaves unlocked OneOwner }
    ensures states { Leaves unlocked OneState }
    ensures users { Leaves unlocked Users }
    ensures shares { Leaves unlocked SharesCounted }
    ensures tasks { Leaves unlocked OneTaskValue }
    ensures threads { Leaves unlocked NumbersDiffer }
    ensures servers { Leaves unlocked ServersDiffer }
{}

/// A `dup` is delivered: one share more.
pub fn dup_asked_keeps()
    ensures home { Leaves asks_dup OneHome }
    ensures owner { Leaves asks_dup OneOwner }
    ensures states { Leaves asks_dup OneState }
    ensures users { Leaves asks_dup Users }
    ensures shares { Leaves asks_dup SharesCounted }
    ensures tasks { Leaves asks_dup OneTaskValue }
    ensures threads { Leaves asks_dup NumbersDiffer }
    ensures servers { Leaves asks_dup ServersDiffer }
{}

/// A `dupped` is delivered: the share is the gift of the thread.
pub fn dupped_keeps()
    ensures home { Leaves dupped OneHome }
    ensures owner { Leaves dupped OneOwner }
    ensures states { Leaves dupped OneState }
    ensures users { Leaves dupped Users }
    ensures shares { Leaves dupped SharesCounted }
    ensures tasks { Leaves dupped OneTaskValue }
    ensures threads { Leaves dupped NumbersDiffer }
    ensures servers { Leaves dupped ServersDiffer }
{}

/// A `release` is delivered: one share less, or a task is let go; what is left over is dropped.
pub fn released_keeps()
    ensures home { Leaves released OneHome }
    ensures owner { Leaves released OneOwner }
    ensures states { Leaves released OneState }
    ensures users { Leaves released Users }
    ensures shares { Leaves released SharesCounted }
    ensures tasks { Leaves released OneTaskValue }
    ensures threads { Leaves released NumbersDiffer }
    ensures servers { Leaves released ServersDiffer }
{}
