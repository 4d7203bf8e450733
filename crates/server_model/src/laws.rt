//! Laws of servers and of events.

ghost use Rattle.server_model.specs.Chances.{LargerOnesCome, SmallOnesCome};
ghost use Rattle.server_model.specs.Laws.{ActingLeavesOthers, ApplyingLeavesOthers, HandingOverDelivers, HandingOverKeeps, ReceivingTakes, SendingAdds, SendingToItself, SendingToOthers};
ghost use Rattle.server_model.specs.Rows.{RowsCompute};
ghost use Rattle.server_model.specs.Traces.{TracesCompute};
ghost use Rattle.server_model.specs.Trials.{TrialsCompute};

/// Some whole runs under a given order of events, each with what a report shows of it.
pub fn rows_compute()
    ensures { RowsCompute }
{}

/// Some whole runs of borrows, of places with several stars, and of tasks and mutexes, each with what a report shows of it.
pub fn trials_compute()
    ensures { TrialsCompute }
{}

/// What some runs show in full: the acts of each event, the labels, which threads have moved, and the users of copies.
pub fn traces_compute()
    ensures { TracesCompute }
{}

/// Runs of small and of larger programs whose events are drawn by a small generator, evictions and migrations among them: each event has a
/// result, and the prints are always the same.
pub fn chances_compute()
    ensures small { SmallOnesCome }
    ensures larger { LargerOnesCome }
{}

/// A message to the server itself waits there last, and one to another server stands last in the outbox. Sending adds that message
/// alone and receiving takes that one alone, whatever is counted of the messages.
pub fn messages_are_kept()
    ensures itself { SendingToItself }
    ensures others { SendingToOthers }
    ensures sending { SendingAdds }
    ensures receiving { ReceivingTakes }
{}

/// Handing over empties each outbox and puts each message last at its server, in order. It loses and repeats no message, and
/// changes nothing else.
pub fn handing_over()
    ensures keeps { HandingOverKeeps }
    ensures delivers { HandingOverDelivers }
{}

/// An event changes its own server. Of the others it changes the waiting messages alone, once its own are handed over.
pub fn others_are_left()
    ensures acting { ActingLeavesOthers }
    ensures applying { ApplyingLeavesOthers }
{}
