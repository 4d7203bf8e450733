//! Where the places of threads lead in a coherent cluster and in its one heap, and who else points to what a thread writes.

ghost use Rattle.law_words_paths.specs.paths.Above.{SolePointer};
ghost use Rattle.law_words_paths.specs.paths.Example.{PlacesApply};
ghost use Rattle.law_words_paths.specs.paths.HeapStore.{CoherentHasPaths, PlacesLeadAlike};
ghost use Rattle.law_words_paths.specs.paths.Pointing.{AboveIsStale, EndedMayWrite, MayWriteThere, SolePointers, WrittenAreApart, WrittenAreFresh};

/// A place of a thread of a cluster leads, star by star, to where it leads in the one heap that the cluster stands for; and a place that typing gives a
/// type leads somewhere. What is asked of the cluster (`HasPaths`) every coherent one has; in one
/// of them main stands at an assignment through its box, and all that these laws ask is there.
pub fn places_lead_alike()
    ensures alike { PlacesLeadAlike }
    ensures coherent { CoherentHasPaths }
    ensures applies { PlacesApply }
{}

/// Whoever points to an object that a typed place may write, in whatever thread, is the pointer that the place follows last, or a pointer from which
/// that one was made: in a typed store, and over the locations of a cluster, where no shared reference and no view leads there. The places
/// that assignments, moves and mutable borrows have at a thread's instruction are such, and so is what a mutable reference in a slot leads to that the
/// instruction ends.
pub fn one_may_write()
    ensures store { SolePointer }
    ensures cluster { SolePointers }
    ensures written { MayWriteThere }
    ensures ended { EndedMayWrite }
{}

/// In every cluster, what stands above a changed mutable reference, or above a stale pointer, is stale.
pub fn those_above_are_stale()
    ensures { AboveIsStale }
{}

/// No pointer that a place of an assignment, a move or a mutable borrow follows at its thread's instruction is stale, unless that thread has taken the
/// object for the borrow itself: no mutable reference was made from such a pointer, and no place of another thread meets it.
pub fn written_are_fresh()
    ensures fresh { WrittenAreFresh }
    ensures apart { WrittenAreApart }
{}
