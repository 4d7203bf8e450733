//! What an event leaves of the pointers that threads follow: the pointers on the way of each thread but the one that steps have the words that they had.

ghost use Rattle.std.specs.Prelude.{ℕ};
ghost use Rattle.law_words_values.specs.Below.fr_base.declared.name.ObjNo.{ObjNo};
ghost use Rattle.law_words_values.specs.Below.coherent_memory.Coherent.{place_followed, taken_is_new, waits_in_turn};
ghost use Rattle.law_words_values.specs.Below.coherent_memory.Requests.{old_word};
ghost use Rattle.law_words_values.specs.Below.coherent_memory.Walking.{away, lost_place, out_of_turn, over_passed};
ghost use Rattle.law_words_values.specs.Below.server_msgs.declared.message.Message.TheVariants.{Drop, Move};
ghost use Rattle.law_counts_waiting.specs.waits.Steady.{EachSteadyEventKeeps};
ghost use Rattle.law_walks_others.specs.pointers.Deliveries.{DeliveryKeeps, DeliveryLeavesPointers};
ghost use Rattle.law_walks_others.specs.pointers.Pointers.{OthersStepsKeep, OthersStepsLeavePointers};
ghost use Rattle.law_walks_others.specs.pointers.Steady.{SteadyEventsLeavePointers};

/// While one thread steps, the place that another thread reads or writes at its instruction, or that of the holder of a reference that it ends, leads where it led, over the
/// same pointers: each has the word that it had, the mark and the pin. So does each place of each thread in an event in which no object comes or goes and no pointer gets
/// another word, but for pins; and the place that any thread follows where an object leaves or goes.
pub fn pointers_stay()
    ensures others { OthersStepsLeavePointers }
    ensures steady { SteadyEventsLeavePointers }
    ensures moves { (w : ℕ) (o : ObjNo) (s t : ℕ) → DeliveryLeavesPointers (Move w o s t) }
    ensures drops { (w : ℕ) (o : ObjNo) → DeliveryLeavesPointers (Drop w o) }
{}

/// So each thread but the one that stepped is at hand of what it has followed, waits in turn, and has taken an object under another word than the pointer has that its place
/// follows last; and what it has passed for a write lies at its server.
pub fn others_stay()
    ensures place_followed { OthersStepsKeep lost_place }
    ensures waits_in_turn { OthersStepsKeep (λ s x. out_of_turn s x x.thread.phase) }
    ensures taken_is_new { OthersStepsKeep (λ s x. old_word s x x.thread.phase) }
    ensures passed_lie_here { OthersStepsKeep (λ s x. over_passed s (away s) x) }
{}

/// And each thread is at hand of what it has followed after each event in which no object comes or goes and no pointer gets another word.
pub fn followed_stays()
    ensures { EachSteadyEventKeeps place_followed }
{}

/// So is what each thread has followed where an object leaves or goes; each waits in turn then, and what it has taken it has under another word than the pointer that its
/// place follows last.
pub fn deliveries_keep()
    ensures moves_followed { (w : ℕ) (o : ObjNo) (s t : ℕ) → DeliveryKeeps (Move w o s t) place_followed }
    ensures moves_turn { (w : ℕ) (o : ObjNo) (s t : ℕ) → DeliveryKeeps (Move w o s t) waits_in_turn }
    ensures moves_taken { (w : ℕ) (o : ObjNo) (s t : ℕ) → DeliveryKeeps (Move w o s t) taken_is_new }
    ensures drops_followed { (w : ℕ) (o : ObjNo) → DeliveryKeeps (Drop w o) place_followed }
    ensures drops_turn { (w : ℕ) (o : ObjNo) → DeliveryKeeps (Drop w o) waits_in_turn }
    ensures drops_taken { (w : ℕ) (o : ObjNo) → DeliveryKeeps (Drop w o) taken_is_new }
{}
