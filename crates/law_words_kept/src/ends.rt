//! Who else points to what a thread ends, drops or writes through in a coherent cluster.

ghost use Rattle.law_words_kept.specs.ends.Dropped.{GivenUpMayBe, OwnedAreAlone};
ghost use Rattle.law_words_kept.specs.ends.Example.{WritesApply};
ghost use Rattle.law_words_kept.specs.ends.Ending.{EndedAreAlone, PassedFollows, WritesAreFresh};
ghost use Rattle.law_words_kept.specs.ends.Lying.{EndedLiesThere, WrittenLieThere};
ghost use Rattle.law_words_kept.specs.ends.Objects.{ObjectsFollow};

/// A mutable reference that a thread's instruction ends, in a slot or from the hand: each pointer to its object is that reference or one that it was made
/// from, no shared reference leads there, none was made from it, and it isn't stale.
pub fn ended_are_alone()
    ensures { EndedAreAlone }
{}

/// No pointer that a thread's write follows is stale, also where the write is that of an ending reference's holder (`fresh`). So that what a write has passed
/// isn't stale follows from types, where it passes no more than it has, and in a walk alone (`passed`). There is a
/// coherent cluster to which both apply (`applies`).
pub fn writes_are_fresh()
    ensures fresh { WritesAreFresh }
    ensures passed { PassedFollows }
    ensures applies { WritesApply }
{}

/// To each object that a temporary value owns, or a value at a place that typing lets the thread write, its box is the only pointer (`alone`). Such are the
/// places that are assigned or moved out of, a slot that goes with its value, and one from which a lock's content is put back (`given`).
pub fn owned_are_alone()
    ensures alone { OwnedAreAlone }
    ensures given { GivenUpMayBe }
{}

/// In a coherent cluster, of a thread that doesn't wait for a cell: the object of each pointer that its write follows lies where the pointer's word leads
/// (`written`), and so does the object of a mutable reference that its instruction ends (`ended`).
pub fn written_lie_there()
    ensures written { WrittenLieThere }
    ensures ended { EndedLiesThere }
{}

/// The object of a `fetch`, a `move` or a `drop` has the message's word and lies where it leads: a sentence of a coherent cluster that follows from types,
/// from the words of objects, and from what is told of answers. Where it were under way a thread would wait for it that has it in its own slots' chains.
pub fn objects_follow()
    ensures { ObjectsFollow }
{}
