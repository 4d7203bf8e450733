//! What each event of a coherent cluster keeps, with all laws of events together.

ghost use Rattle.law_runs_coherent.specs.events.Coherence.{EventsKeepCoherence};
ghost use Rattle.law_runs_coherent.specs.events.Copies.{EventsKeepCopies};
ghost use Rattle.law_runs_coherent.specs.events.Owning.{AgreeingEnd, EventsThatAgreeEnd};
ghost use Rattle.law_runs_coherent.specs.events.Types.{EventsKeepTypes, EventsStandOnce};
ghost use Rattle.law_runs_coherent.specs.events.Ends.{EndsStay};

use coherent_memory::laws::some_follow;
use law_copies_writes::events_keep_words;
use law_counts_asking::{answers_keep, gifts_keep, pairs_keep};
use law_counts_limits::{counts_keep, walks_keep};
use law_counts_sums::every::each_event_handed_over;
use law_counts_things::{
    askers_keep, messages_keep, names_keep, servers_keep, threads_keep, threads_keep_to_code,
    values_keep_to_code,
};
use law_counts_waiting::{contents_keep, waits_keep};
use law_types_events::parts_keep;
use law_walks_own::{all_land, each_event_uncopied, steps_keep_walks, taken_stays};
use law_words_issued::{each_event_issues, objects_stay_apart};
use law_words_kept::objects_follow;

/// From a coherent cluster in which few events were done, each event that has a result, its messages handed over, leaves a cluster in which the code of each thread that is
/// over ends with the type that its task has afterwards, by whatever types of names by which those that were given before have the types that they had: the thread was over,
/// or it has just ended.
pub fn ends_stay()
    ensures { EndsStay }
{}

/// From a coherent cluster in which few events were done, each event that has a result, its messages handed over, leaves a cluster in which each thing stands once: what the
/// types of the one heap need of soundness, none of which needs types.
pub fn events_stand_once()
    ensures { EventsStandOnce }
{
    parts_keep();
}

/// So each event, whatever it is, leaves a cluster that has types: where it does no plain step by `undone_events_keep_types` of `law_types_still::things`, and else by what laws say of the one heap
/// and of each count of types afterwards. No soundness of the cluster afterwards is asked, so that this can be shown with types.
pub fn events_keep_types()
    ensures { EventsKeepTypes }
{
    events_stand_once();
}

/// Where each cell, content and result agrees with the type of its name, and no two threads have one number, going from owners to what they own comes to an end: no
/// object, mutex or result owns itself, directly or through others. So it is after each event of a sound cluster that leaves such types.
pub fn owners_end()
    ensures agreeing { AgreeingEnd }
    ensures events { EventsThatAgreeEnd }
{}

/// From a coherent cluster in which few events were done each event leaves copies right, once its messages are handed over: a copy under the word of a live object that isn't
/// changed through a reference is its present cell, words included, and each copy that is asked for, or on its way, is one of such an object.
pub fn events_keep_copies()
    ensures { EventsKeepCopies }
{}

/// **Coherence is kept**: from a coherent cluster in which fewer than 2^31 - 1 events were done, each event of whatever kind, where it has a result, its messages handed over, leads to a
/// coherent one: each sentence holds and it has types. Nothing else is asked, of the order of deliveries, of evictions, migrations, colours or the number of servers.
pub fn events_keep_coherence()
    ensures { EventsKeepCoherence }
{
    some_follow();
    each_event_handed_over();
    threads_keep();
    messages_keep();
    servers_keep();
    threads_keep_to_code();
    names_keep();
    askers_keep();
    values_keep_to_code();
    counts_keep();
    walks_keep();
    parts_keep();
    answers_keep();
    pairs_keep();
    gifts_keep();
    waits_keep();
    contents_keep();
    events_keep_words();
    objects_stay_apart();
    events_keep_copies();
    taken_stays();
    all_land();
    steps_keep_walks();
    each_event_uncopied();
    each_event_issues();
    owners_end();
    objects_follow();
    events_keep_types();
}
