//! How much an event takes at most, and how large the counts of a coherent cluster get.

ghost use Rattle.law_counts_limits.specs.limits.Counts.{CountsAreSmall, FewAreFew};
ghost use Rattle.law_counts_limits.specs.limits.Sending.{EventsSendFew};

/// An event of whatever kind, at whatever server, puts at most two messages into its outbox. They come last, and none of them goes to the server itself;
/// its number stays.
pub fn events_send_few()
    ensures { EventsSendFew }
{}

/// In a coherent cluster no count of a server or of its threads is large: each is at most a small multiple of the number of events, or of the length of the
/// code. Fewer than 1,000,000,000 events are few for all laws of events.
pub fn counts_are_small()
    ensures counts { CountsAreSmall }
    ensures few { FewAreFew }
{}
