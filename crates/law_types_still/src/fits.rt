//! What stands in a typed one heap agrees with the types of its names.

ghost use Rattle.law_types_still.specs.fits.Fits.{SoundStandOnce, TypedHeapsFit, MisfitsFollow};

/// In each sound cluster threads are found by their numbers, each object has one home and one owner, and mutexes and results stand once: what the law below needs of soundness,
/// none of which needs types.
pub fn sound_stand_once()
    ensures { SoundStandOnce }
{}

/// In each such cluster whose one heap is typed, between events or not, where values have the sorts of their parts: the cell of each object that is in the one heap, the content
/// of each mutex there and each result there, at home, in a message or as a gift, agrees with the type of its name, for types of objects by which what is counted of types
/// follows (`inside`). Where what is outside the one heap agrees too, for whatever types of objects, all agrees for some types of objects that are these in the one heap
/// (`whole`): nobody inside owns what is outside, nor the other way.
pub fn typed_heaps_fit()
    ensures inside { TypedHeapsFit }
    ensures whole { MisfitsFollow }
{}
