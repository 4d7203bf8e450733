//! The words of objects where a reference goes.

ghost use Rattle.law_words_values.specs.references.Fewer.{FewerStays, RankedAreFresh, TypesRank};
ghost use Rattle.law_words_values.specs.references.Gone.{ReferencesGo};
ghost use Rattle.law_words_values.specs.references.Starts.{StartsLeaveWords};
ghost use Rattle.law_words_values.specs.references.Unpassed.{UnnamedAreUnpassed};

/// The place of no mutable reference's holder passes a slot that no type names: such a slot may be moved out of, assigned or dropped, whatever stands in it.
pub fn holders_pass_no_unnamed_slot()
    ensures { UnnamedAreUnpassed }
{}

/// Each mutable reference ranks above the pointer that it was made from (`rank`), so an object that lies somewhere has a box, a mutable reference or a word that
/// was taken, which isn't stale (`fresh`). So where a shared reference goes, each object has the word that it had, references know the words at their holders,
/// dirty references are alone and first words that were left are no words of today (`stays`).
pub fn pointers_may_go()
    ensures rank { TypesRank }
    ensures fresh { RankedAreFresh }
    ensures stays { FewerStays }
{}

/// From a coherent cluster a step leaves the words that moves whatever stands in a variable, or with which a reference to a slot or a shared one goes: with its
/// slot, from the hand, or where it is assigned over.
pub fn references_go()
    ensures { ReferencesGo }
{}

/// And so does one that starts a thread or a pair from a coherent cluster: what a new thread captures goes to it value by value, from slots that no type names, and
/// what it has is nothing before.
pub fn starts_leave_words()
    ensures { StartsLeaveWords }
{}
