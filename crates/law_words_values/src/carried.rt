//! The words of objects where a value goes from one place to another.

ghost use Rattle.law_words_values.specs.carried.Carried.{CarriedStays};
ghost use Rattle.law_words_values.specs.carried.Leaving.{MovesLeave};
ghost use Rattle.law_words_values.specs.carried.Made.{MadeKeeps};
ghost use Rattle.law_words_values.specs.carried.Steps.{AssignsOver, DiscardsCarry, LocksKeep, OwnedGoes, StepsCarry};

/// Where a value goes from one place to another, from whose pointer no mutable reference was made, each object has the word that it had, references know the words
/// at their holders, dirty references are alone and first words that were left are no words of today.
pub fn values_are_carried()
    ensures stays { CarriedStays }
{}

/// So it is from a sound cluster where a step declares a variable, makes a mutex, joins or ends a thread, and where it discards a value that is no reference to
/// an object: what moves is a temporary value or a thread's gift, to which no place leads, and no place led to where it comes.
pub fn steps_carry_values()
    ensures steps { StepsCarry }
    ensures discards { DiscardsCarry }
{}

/// From a coherent cluster so does a step that drops the newest variable with what it owns, puts a lock's content back, or moves an owned value out of a
/// variable (`goes`): to each object that goes its box is the only pointer, by types, so no place at which a reference was made passes the slot. And so does an
/// assignment to a variable that owns its value or has none (`assigns`), whatever is assigned.
pub fn owned_values_go()
    ensures goes { OwnedGoes }
    ensures assigns { AssignsOver }
{}

/// Each object has a word, references know the words at their holders, dirty references are alone and first words that were left are no words of today, where a
/// thread stands at a lock in a coherent cluster, whether it asks for the content of its mutex or the content that came becomes a variable.
pub fn locks_keep_words()
    ensures locks { LocksKeep }
{}

/// The delivery of a `move` leaves the words, from a sound cluster: the object is under way under the word that the message named, which is its own, and words see
/// the same of all else.
pub fn moves_leave_words()
    ensures moves { MovesLeave }
{}

/// Where an object is made to which nothing pointed, and one pointer to it is there, it has that pointer's word, which leads to it, each other object has the word
/// that it had, and what else is kept of words is kept: what the new cell has stood in no place before.
pub fn made_objects_have_words()
    ensures keeps { MadeKeeps }
{}
