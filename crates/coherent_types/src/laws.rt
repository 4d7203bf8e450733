//! Laws of types.

ghost use Rattle.coherent_types.specs.Along.{RowsKeepTypes};
ghost use Rattle.coherent_types.specs.Branches.{BranchesLaw};
ghost use Rattle.coherent_types.specs.Breaches.{TypesBreak};
ghost use Rattle.coherent_types.specs.Codes.{CodesCompute};
ghost use Rattle.coherent_types.specs.Locking.{LockHasTypes};
ghost use Rattle.coherent_types.specs.Owning.{NoneOwnsItself};
ghost use Rattle.coherent_types.specs.Paired.{PairHasTypes};
ghost use Rattle.coherent_types.specs.Tables.{TablesCompute};
ghost use Rattle.coherent_types.specs.Typed.{StartHasTypes, TypesCompute};
ghost use Rattle.coherent_types.specs.Whole.{CoherentCompute};

/// The tables of four small codes, with all kinds of captures, a lock, a task and references, and a code that reads what has moved away,
/// which has none.
pub fn codes_are_typed()
    ensures small { CodesCompute }
    ensures tables { TablesCompute }
{}

/// The start of each code that has a table has types, whatever the options, with one server or more.
pub fn starts_have_types()
    ensures { StartHasTypes }
{}

/// Clusters that have types: the start of a code, its run after two events, a parent that waits beside two branches with views,
/// and a thread that holds a mutex. What can be counted of types holds after each event of three rows.
pub fn types_compute()
    ensures whole { TypesCompute }
    ensures paired { PairHasTypes }
    ensures locked { LockHasTypes }
    ensures counted { RowsKeepTypes }
{}

/// Clusters that are coherent in all parts.
pub fn coherent_compute()
    ensures { CoherentCompute }
{}

/// Each sentence that is counted sees the clusters that break it.
pub fn types_break()
    ensures { TypesBreak }
{}

/// In a coherent cluster the two threads of a pair end with unit and stand above their parent, as the parent waits for them and as their home has
/// noted them.
pub fn branches_are_typed()
    ensures { BranchesLaw }
{}

/// In a cluster that has types no object, content or result owns itself, directly or through others.
pub fn none_owns_itself()
    ensures { NoneOwnsItself }
{}
