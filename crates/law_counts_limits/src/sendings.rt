//! What an event sends is what its acts send.

ghost use Rattle.law_counts_limits.specs.sendings.Counting.{EventsCountMessages};
ghost use Rattle.law_counts_limits.specs.sendings.Sending.{EventsSendTheirActs};

/// What an event sends from a server of a sound cluster, whatever event it is, are the messages of its entry's acts, in order, and no others: those to its own server wait there behind
/// the older ones, the others come last in its outbox. So each message is told by an act that names its target, and none goes to a server because it holds a copy (`sendings`).
/// In a cluster in which few events were done, once they are handed over, the messages that wait and the one that was delivered are as many as those that waited and those that its acts send (`counted`).
pub fn events_send_their_acts()
    ensures sendings { EventsSendTheirActs }
    ensures counted { EventsCountMessages }
{}
