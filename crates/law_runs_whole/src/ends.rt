//! How a cluster ends: one that goes on can go on, and of one that is finished nothing is left.

ghost use Rattle.law_runs_whole.specs.ends.Going.{CanIsGoing, GoingCan};
ghost use Rattle.law_runs_whole.specs.ends.Left.{FinishedIsEmpty};

/// In a sound cluster without a message in an outbox that is going a thread can step or a message can be delivered: nobody waits for a message that isn't under way. And
/// a cluster in which a thread can step or a message can be delivered is going.
pub fn going_goes_on()
    ensures can { GoingCan }
    ensures going { CanIsGoing }
{}

/// In a sound cluster that is finished no object, message, mutex or result is left, and nobody uses a copy.
pub fn finished_is_empty()
    ensures { FinishedIsEmpty }
{}
