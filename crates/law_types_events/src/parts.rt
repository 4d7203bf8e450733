//! What each event keeps of the types of a server's parts.

ghost use Rattle.law_counts_limits.specs.Below.coherent_memory.Coherent.{parts_are_typed};
ghost use Rattle.law_counts_limits.specs.Below.law_counts_things.things.Laws.{EachEventKeeps};

/// In a sound cluster the servers are those of the run by rising number, and each part is one of its type: a partition is its server's under the run's colours, its retired
/// addresses are counted and no free one is without a colour; a cache has a word once; mutexes, tasks and threads stand by rising number; and a parcel keeps nothing in use.
pub fn parts_keep()
    ensures parts_are_typed { EachEventKeeps parts_are_typed }
{}
