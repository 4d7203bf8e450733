//! What the step of an instruction keeps, whatever its place needs first.

ghost use Rattle.law_counts_sums.specs.Kinds.{step_arith, step_assign, step_borrow, step_borrow_mut, step_discard, step_drop_slot, step_let, step_print, step_read};
ghost use Rattle.law_counts_sums.specs.Laws.{Leaves, NumbersDiffer, OneState, OneTaskValue, ServersDiffer, SharesCounted};
ghost use Rattle.coherent_memory.specs.Coherent.{OneHome, OneOwner, Users};

/// A new variable.
pub fn let_keeps()
    ensures home { Leaves step_let OneHome }
    ensures owner { Leaves step_let OneOwner }
    ensures states { Leaves step_let OneState }
    ensures users { Leaves step_let Users }
    ensures shares { Leaves step_let SharesCounted }
    ensures tasks { Leaves step_let OneTaskValue }
    ensures threads { Leaves step_let NumbersDiffer }
    ensures servers { Leaves step_let ServersDiffer }
{}

/// An assignment, to a variable or through a star; what was there is dropped.
pub fn assign_keeps()
    ensures home { Leaves step_assign OneHome }
    ensures owner { Leaves step_assign OneOwner }
    ensures states { Leaves step_assign OneState }
    ensures users { Leaves step_assign Users }
    ensures shares { Leaves step_assign SharesCounted }
    ensures tasks { Leaves step_assign OneTaskValue }
    ensures threads { Leaves step_assign NumbersDiffer }
    ensures servers { Leaves step_assign ServersDiffer }
{}

/// A read: a second value, or the value itself.
pub fn read_keeps()
    ensures home { Leaves step_read OneHome }
    ensures owner { Leaves step_read OneOwner }
    ensures states { Leaves step_read OneState }
    ensures users { Leaves step_read Users }
    ensures shares { Leaves step_read SharesCounted }
    ensures tasks { Leaves step_read OneTaskValue }
    ensures threads { Leaves step_read NumbersDiffer }
    ensures servers { Leaves step_read ServersDiffer }
{}

/// A shared borrow.
pub fn borrow_keeps()
    ensures home { Leaves step_borrow OneHome }
    ensures owner { Leaves step_borrow OneOwner }
    ensures states { Leaves step_borrow OneState }
    ensures users { Leaves step_borrow Users }
    ensures shares { Leaves step_borrow SharesCounted }
    ensures tasks { Leaves step_borrow OneTaskValue }
    ensures threads { Leaves step_borrow NumbersDiffer }
    ensures servers { Leaves step_borrow ServersDiffer }
{}

/// A mutable borrow.
pub fn borrow_mut_keeps()
    ensures home { Leaves step_borrow_mut OneHome }
    ensures owner { Leaves step_borrow_mut OneOwner }
    ensures states { Leaves step_borrow_mut OneState }
    ensures users { Leaves step_borrow_mut Users }
    ensures shares { Leaves step_borrow_mut SharesCounted }
    ensures tasks { Leaves step_borrow_mut OneTaskValue }
    ensures threads { Leaves step_borrow_mut NumbersDiffer }
    ensures servers { Leaves step_borrow_mut ServersDiffer }
{}

/// A sum, a difference or a product.
pub fn arith_keeps()
    ensures home { Leaves step_arith OneHome }
    ensures owner { Leaves step_arith OneOwner }
    ensures states { Leaves step_arith OneState }
    ensures users { Leaves step_arith Users }
    ensures shares { Leaves step_arith SharesCounted }
    ensures tasks { Leaves step_arith OneTaskValue }
    ensures threads { Leaves step_arith NumbersDiffer }
    ensures servers { Leaves step_arith ServersDiffer }
{}

/// A number is printed.
pub fn print_keeps()
    ensures home { Leaves step_print OneHome }
    ensures owner { Leaves step_print OneOwner }
    ensures states { Leaves step_print OneState }
    ensures users { Leaves step_print Users }
    ensures shares { Leaves step_print SharesCounted }
    ensures tasks { Leaves step_print OneTaskValue }
    ensures threads { Leaves step_print NumbersDiffer }
    ensures servers { Leaves step_print ServersDiffer }
{}

/// The temporary value on top is dropped.
pub fn discard_keeps()
    ensures home { Leaves step_discard OneHome }
    ensures owner { Leaves step_discard OneOwner }
    ensures states { Leaves step_discard OneState }
    ensures users { Leaves step_discard Users }
    ensures shares { Leaves step_discard SharesCounted }
    ensures tasks { Leaves step_discard OneTaskValue }
    ensures threads { Leaves step_discard NumbersDiffer }
    ensures servers { Leaves step_discard ServersDiffer }
{}

/// The last slot is dropped.
pub fn drop_slot_keeps()
    ensures home { Leaves step_drop_slot OneHome }
    ensures owner { Leaves step_drop_slot OneOwner }
    ensures states { Leaves step_drop_slot OneState }
    ensures users { Leaves step_drop_slot Users }
    ensures shares { Leaves step_drop_slot SharesCounted }
    ensures tasks { Leaves step_drop_slot OneTaskValue }
    ensures threads { Leaves step_drop_slot NumbersDiffer }
    ensures servers { Leaves step_drop_slot ServersDiffer }
{}
