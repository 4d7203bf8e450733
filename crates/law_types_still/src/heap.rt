//! What a typed one heap says of its cluster.

ghost use Rattle.law_types_still.specs.heap.Counted.{TypedHeapsCount, TypesFollow};
ghost use Rattle.law_types_still.specs.heap.Shown.{HeapsAreWhole};

/// The one heap of each sound cluster is the state of a plain machine: of finitely many threads, objects, mutexes and pairs.
pub fn heaps_are_whole()
    ensures { HeapsAreWhole }
{}

/// In each cluster whose one heap is typed, between events or not, where threads are found by their numbers, which were given, and who is over has nothing: the slot above
/// a lock's mark has the type of its mutex; each reference leads where its exact type does, and has its holder there where the holders are those of the exact types; the
/// code of each thread ends with the type of its task, where that is so of threads that are over; and each slot and temporary value has its form, for some types of
/// objects, where it has the sort that the one heap doesn't tell: shared or mutable, moved away or nothing, and left operands are integers (`counts`). So such a cluster has
/// types, where that and four counts more are shown (`types`): cells, contents and results agree with the types of their names, holders are right, views are seen, and
/// threads that are over ended as their tasks say.
pub fn typed_heaps_count()
    ensures counts { TypedHeapsCount }
    ensures types { TypesFollow }
{}
