//! Words that stand after each event of a coherent cluster.

ghost use Rattle.law_words_issued.specs.ever.Issued.{EachEventIssues};
ghost use Rattle.law_words_issued.specs.ever.Standing.{EventsIssueWords, IssuedFollows};
ghost use Rattle.law_words_issued.specs.ever.Lent.{LandingsLeaveLent, StepsLeaveLent};
ghost use Rattle.law_words_issued.specs.ever.Arrivals.{ArrivalsKeepWhatWasIssued};
ghost use Rattle.law_words_issued.specs.ever.Kinds.{DeliveriesStandIssued, StepsStandIssued};

/// From a coherent cluster in which few events were done, each word that stands anywhere was issued after the step of a thread at an instruction that follows no star, ends no
/// mutable reference to an object and makes nothing that has a name (`steps`), and after the delivery of whatever message but one with which an object lands
/// (`deliveries`): such an event issues no word, and leaves each object the word that it had.
pub fn words_stand_issued()
    ensures steps { StepsStandIssued }
    ensures deliveries { DeliveriesStandIssued }
{}

/// From a coherent cluster in which few events were done: after the delivery of an object each word that had been issued is issued, where the pointers from which threads
/// have taken objects have words that had been issued, and places have types. The object's word is the new one then: a pointer or a thread that has taken it has that, and
/// such a pointer isn't stale, as no reference has the word as its first one; so its object lies where the word leads, which is the one that came.
pub fn arrivals_leave_issued()
    ensures { ArrivalsKeepWhatWasIssued }
{}

/// After the step of a thread (`steps`), and where an object comes (`landings`), from a coherent cluster in which few events were done: each pointer from which a thread has
/// taken an object for its mutable borrow has a word that had been issued. Where the object comes that is taken the pointer keeps its word, and while a thread has it no event
/// of another one changes a pointer on its way.
pub fn lent_words_stay()
    ensures steps { StepsLeaveLent }
    ensures landings { LandingsLeaveLent }
{}

/// In a cluster in which the words of former times were issued so was each word that stands anywhere. A pointer that isn't stale has the word of its object, which lies where
/// that leads, or is under way; a stale one has the first word of a reference that was made from it, or an object was taken from it. Walks have words of copies, requests
/// that of what lies there, and what a thread waits for stands in a message.
pub fn words_follow()
    ensures { IssuedFollows }
{}

/// So each word that stands anywhere was issued after an event of a coherent cluster that keeps what was issued, and of which the words of former times had been issued.
pub fn events_issue_words()
    ensures { EventsIssueWords }
{}

/// From a coherent cluster in which few events were done, each word that stands anywhere was issued after each event, whatever it is, its messages handed over, where the rest of
/// the cluster is settled then. Most deliveries leave objects their words. After a step, and where an object comes, what was issued is issued, and the words of former times are
/// old ones: first words of references, and words of copies, of objects under way, and of pointers from which objects were taken.
pub fn each_event_issues()
    ensures { EachEventIssues }
{}
