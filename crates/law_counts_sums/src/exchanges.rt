//! What the step of an instruction keeps that asks for something, or gives something to a mutex or a thread.

ghost use Rattle.law_counts_sums.specs.Kinds.{step_dup, step_end, step_join, step_lock, step_mutex, step_par_end, step_unlock};
ghost use Rattle.law_counts_sums.specs.Laws.{Leaves, NumbersDiffer, OneState, OneTaskValue, ServersDiffer, SharesCounted};
ghost use Rattle.coherent_memory.specs.Coherent.{OneHome, OneOwner, Users};

/// A result is asked for, or taken.
pub fn join_keeps()
    ensures home { Leaves step_join OneHome }
    ensures owner { Leaves step_join OneOwner }
    ensures states { Leaves step_join OneState }
    ensures users { Leaves step_join Users }
    ensures shares { Leaves step_join SharesCounted }
    ensures tasks { Leaves step_join OneTaskValue }
    ensures threads { Leaves step_join NumbersDiffer }
    ensures servers { Leaves step_join ServersDiffer }
{}

/// A new mutex, with one share.
pub fn mutex_keeps()
    ensures home { Leaves step_mutex OneHome }
    ensures owner { Leaves step_mutex OneOwner }
    ensures states { Leaves step_mutex OneState }
    ensures users { Leaves step_mutex Users }
    ensures shares { Leaves step_mutex SharesCounted }
    ensures tasks { Leaves step_mutex OneTaskValue }
    ensures threads { Leaves step_mutex NumbersDiffer }
    ensures servers { Leaves step_mutex ServersDiffer }
{}

/// A share is asked for, or taken.
pub fn dup_keeps()
    ensures home { Leaves step_dup OneHome }
    ensures owner { Leaves step_dup OneOwner }
    ensures states { Leaves step_dup OneState }
    ensures users { Leaves step_dup Users }
    ensures shares { Leaves step_dup SharesCounted }
    ensures tasks { Leaves step_dup OneTaskValue }
    ensures threads { Leaves step_dup NumbersDiffer }
    ensures servers { Leaves step_dup ServersDiffer }
{}

/// A content is asked for, or taken.
pub fn lock_keeps()
    ensures home { Leaves step_lock OneHome }
    ensures owner { Leaves step_lock OneOwner }
    ensures states { Leaves step_lock OneState }
    ensures users { Leaves step_lock Users }
    ensures shares { Leaves step_lock SharesCounted }
    ensures tasks { Leaves step_lock OneTaskValue }
    ensures threads { Leaves step_lock NumbersDiffer }
    ensures servers { Leaves step_lock ServersDiffer }
{}

/// A content is given back.
pub fn unlock_keeps()
    ensures home { Leaves step_unlock OneHome }
    ensures owner { Leaves step_unlock OneOwner }
    ensures states { Leaves step_unlock OneState }
    ensures users { Leaves step_unlock Users }
    ensures shares { Leaves step_unlock SharesCounted }
    ensures tasks { Leaves step_unlock OneTaskValue }
    ensures threads { Leaves step_unlock NumbersDiffer }
    ensures servers { Leaves step_unlock ServersDiffer }
{}

/// Both branches of a pair have ended.
pub fn par_end_keeps()
    ensures home { Leaves step_par_end OneHome }
    ensures owner { Leaves step_par_end OneOwner }
    ensures states { Leaves step_par_end OneState }
    ensures users { Leaves step_par_end Users }
    ensures shares { Leaves step_par_end SharesCounted }
    ensures tasks { Leaves step_par_end OneTaskValue }
    ensures threads { Leaves step_par_end NumbersDiffer }
    ensures servers { Leaves step_par_end ServersDiffer }
{}

/// The thread ends, and its result goes to its home or is dropped.
pub fn end_keeps()
    ensures home { Leaves step_end OneHome }
    ensures owner { Leaves step_end OneOwner }
    ensures states { Leaves step_end OneState }
    ensures users { Leaves step_end Users }
    ensures shares { Leaves step_end SharesCounted }
    ensures tasks { Leaves step_end OneTaskValue }
    ensures threads { Leaves step_end NumbersDiffer }
    ensures servers { Leaves step_end ServersDiffer }
{}
