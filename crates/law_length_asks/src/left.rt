//! How often a thread asks yet before a step of it is done.

ghost use Rattle.law_length_asks.specs.left.Steps.{AsksTakeOne, AtMostTwenty, OthersStepsLeaveAsks};

/// A thread has at most twenty asks left, whatever the cluster.
pub fn asks_are_few()
    ensures { AtMostTwenty }
{}

/// Each step of a thread that asks for something, from a coherent cluster to a coherent one, takes one from the asks that it has left: for a copy, an object, a lock, a share or the result of a
/// thread, at whatever instruction. Who has a gift of a home, or has taken an object to lend it, asks for nothing.
pub fn asks_take_one()
    ensures { AsksTakeOne }
{}

/// The step of another thread, done or not, gives a thread no more asks.
pub fn others_leave_asks()
    ensures { OthersStepsLeaveAsks }
{}
