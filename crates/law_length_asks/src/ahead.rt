//! How many hops of its place a thread has ahead of it.

ghost use Rattle.std.specs.Prelude.{ℕ};
ghost use Rattle.law_walks_own.specs.Below.server_msgs.declared.message.Message.TheVariants.{Drop, Move};
ghost use Rattle.law_walks_own.specs.Below.fr_base.declared.name.ObjNo.{ObjNo};
ghost use Rattle.law_length_asks.specs.ahead.Ahead.{AheadWithinStars, CopiesLeadOn, DeliveryLeavesAhead, EightAhead, OthersStepsLeaveAhead, OwnReadsLeaveNoMore, SteadyEventsLeaveAhead};

/// A thread has at most as many hops ahead of it as the place that it follows has stars, or the place of the holder of a reference that it ends: in a coherent
/// cluster at most eight.
pub fn hops_ahead_are_few()
    ensures stars { AheadWithinStars }
    ensures eight { EightAhead }
{}

/// Nobody else puts more hops ahead of a thread: as many are ahead of it after the step of another thread, and after each event in which no object comes or goes
/// and no pointer gets another word, and where an object leaves or goes.
pub fn hops_ahead_stay()
    ensures others { OthersStepsLeaveAhead }
    ensures steady { SteadyEventsLeaveAhead }
    ensures moves { (w : ℕ) (o : ObjNo) (s t : ℕ) → DeliveryLeavesAhead (Move w o s t) }
    ensures drops { (w : ℕ) (o : ObjNo) → DeliveryLeavesAhead (Drop w o) }
{}

/// A copy that a thread waits for in turn leads it on: once it uses that copy, fewer hops are ahead of it.
pub fn copies_lead_on()
    ensures { CopiesLeadOn }
{}

/// Nor does the step of the thread itself: where it reads a whole place, for a copy, a `dup` or a `lock`, and asks for something on its way, no more hops are
/// ahead of it than before.
pub fn own_reads_lead_on()
    ensures { OwnReadsLeaveNoMore }
{}
