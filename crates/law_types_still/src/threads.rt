//! What types say of threads stays where no plain step is done.

ghost use Rattle.law_types_still.specs.threads.Threads.{UndoneKeepsThreadTypes};

/// From a coherent cluster in which fewer than 2^31 - 1 events were done, each event of whatever kind that does no plain step leaves what types say of threads,
/// its messages handed over, where it has a result: by the same table and the same types of names each slot and temporary value has its form, the slot above a
/// lock's mark has the type of its mutex, each reference leads where its exact type does and has its holder there, each view is seen by its parent, and each
/// thread's code ends with the type of its task.
pub fn undone_threads_keep_types()
    ensures { UndoneKeepsThreadTypes }
{}
