//! What a thread reads.

ghost use Rattle.law_words_kept.specs.reads.Reading.{MayReadThere, ReadAreFresh, ReadLieThere};

/// A place that an instruction reads is one that typing lets its thread read: nothing that a mutable reference names. So no pointer that the thread follows
/// for reading is stale, wherever it stands. In a coherent cluster the object of each of them lies where the pointer's word leads, if the thread doesn't wait
/// for a cell: who waits for an object has it in a chain of its own.
pub fn reads_find()
    ensures readable { MayReadThere }
    ensures fresh { ReadAreFresh }
    ensures there { ReadLieThere }
{}
