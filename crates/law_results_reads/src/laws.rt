//! That a step that is enabled has a result.

ghost use Rattle.law_counts_sums.specs.Kinds.{step_arith, step_assign, step_borrow, step_borrow_mut, step_box, step_discard, step_drop_slot, step_dup, step_end, step_join, step_let, step_lock, step_mutex, step_par_end, step_print, step_read, step_unlock};
ghost use Rattle.law_results_reads.specs.Results.{Anyhow, FollowsNone, ReadsPlace, StepsHaveResults};

/// In a coherent cluster, where fewer than 2^31 - 1 events were done, each enabled step that follows no pointer has a result: the operands, the variable and
/// what goes are there and of the right kind, an address or a number is left, and all that the thread has in use can go.
pub fn steps_of_variables()
    ensures lets { StepsHaveResults step_let FollowsNone }
    ensures assignments { StepsHaveResults step_assign FollowsNone }
    ensures reads { StepsHaveResults step_read FollowsNone }
    ensures borrows { StepsHaveResults step_borrow FollowsNone }
    ensures lends { StepsHaveResults step_borrow_mut FollowsNone }
    ensures boxes { StepsHaveResults step_box FollowsNone }
    ensures sums { StepsHaveResults step_arith FollowsNone }
    ensures prints { StepsHaveResults step_print FollowsNone }
    ensures discards { StepsHaveResults step_discard FollowsNone }
    ensures drops { StepsHaveResults step_drop_slot FollowsNone }
    ensures joins { StepsHaveResults step_join FollowsNone }
    ensures mutexes { StepsHaveResults step_mutex FollowsNone }
    ensures dups { StepsHaveResults step_dup FollowsNone }
    ensures locks { StepsHaveResults step_lock FollowsNone }
    ensures unlocks { StepsHaveResults step_unlock FollowsNone }
    ensures pair_ends { StepsHaveResults step_par_end FollowsNone }
    ensures ends { StepsHaveResults step_end FollowsNone }
{}

/// So has each step that reads a place, with however many stars: a copy, a dup and a lock. Each pointer on the way isn't stale, its object lies where its word
/// leads or a copy under that word is the object's, or it is asked for; and what stands at the end is of the place's type.
pub fn steps_that_read()
    ensures copies { StepsHaveResults step_read ReadsPlace }
    ensures dups { StepsHaveResults step_dup Anyhow }
    ensures locks { StepsHaveResults step_lock Anyhow }
{}

/// So has each borrow, with however many stars. The pointer that the last star follows is there. At a shared borrow a changed mutable reference is cleaned: it
/// gets the next colour or a new address, or its object is asked for; at a mutable one that pointer isn't shared, and its object is here, came or is asked for.
pub fn steps_that_borrow()
    ensures shared { StepsHaveResults step_borrow Anyhow }
    ensures mutable { StepsHaveResults step_borrow_mut Anyhow }
{}
