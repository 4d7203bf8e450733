//! An event that does a plain step does exactly that step on the one heap.

ghost use Rattle.law_words_kept.specs.Below.coherent_memory.Coherent.{IsSound};
ghost use Rattle.law_heap_steps.specs.turns.Rows.{RowsCompute};
ghost use Rattle.law_heap_steps.specs.turns.Turns.{ArePlainSteps, ArePlainStepsWhere, borrows_place, borrows_slot, copies_place, discards_none, drops_none, is_arith, is_let, is_print, lends_place, reads_slot, replaces_none};
ghost use Rattle.law_words_kept.specs.Below.coherent_types.ClusterTypes.{IsCoherent};

/// From a sound cluster, each of these steps is the plain step of its thread on the one heap, with the entry's names and labels, its messages handed over:
/// a new variable, arithmetic, a print, and reads and borrows of a variable.
pub fn own_steps()
    ensures lets { ArePlainSteps IsSound is_let }
    ensures sums { ArePlainSteps IsSound is_arith }
    ensures prints { ArePlainSteps IsSound is_print }
    ensures reads { ArePlainSteps IsSound reads_slot }
    ensures borrows { ArePlainSteps IsSound borrows_slot }
{}

/// From a coherent cluster, so is each step of a copy and of a borrow, shared or mutable, through however many stars: the place is followed to what it leads to
/// in the one heap, and the loads on the way are the entry's labels. A step that ends with a request does no plain step.
pub fn star_steps()
    ensures copies { ArePlainSteps IsCoherent copies_place }
    ensures shared { ArePlainSteps IsCoherent borrows_place }
    ensures lent { ArePlainSteps IsCoherent lends_place }
{}

/// From a sound cluster, so is a discard, the end of a variable and an assignment to one, where the value that is dropped is no box, mutex or task. A mutable
/// reference that ends gives its word to its holder, and a pinned one its copy back: neither shows.
pub fn drop_steps()
    ensures discards { ArePlainStepsWhere IsSound discards_none }
    ensures drops { ArePlainStepsWhere IsSound drops_none }
    ensures replaces { ArePlainStepsWhere IsSound replaces_none }
{}

/// A run whose steps are all of these kinds, computed: no sentence is broken before any of them, and each is done.
pub fn rows_compute()
    ensures { RowsCompute }
{}
