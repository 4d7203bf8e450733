//! What each event keeps of the names in a cluster: words, threads, mutexes, holders and who asks.

ghost use Rattle.law_counts_things.specs.Below.coherent_memory.Coherent.{askers_stand, below_limit, counts_from_one, few_names, holders_short, marks_in_slots, names_counted, objects_made, return_right};
ghost use Rattle.law_counts_things.specs.things.Laws.{EachCoherentEventKeeps, EachEventKeeps};

/// What all that is named keeps in a sound cluster, wherever it stands: each word has a colour below the limit, and so has what comes next at a free address; the count of
/// each thread and of each mutex is at most what its home has come to, and none is 0 but that of main; few names were given; and the number of an object is below what its
/// thread has made, where that goes on.
pub fn names_keep()
    ensures below_limit { EachEventKeeps below_limit }
    ensures names_counted { EachEventKeeps names_counted }
    ensures counts_from_one { EachEventKeeps counts_from_one }
    ensures few_names { EachEventKeeps few_names }
    ensures objects_made { EachEventKeeps objects_made }
{}

/// What is told of who asks, in a sound cluster: a request, a place in a queue and a noted asker name the server where their thread stands, and an answer goes there.
pub fn askers_keep()
    ensures askers_stand { EachEventKeeps askers_stand }
    ensures return_right { EachEventKeeps return_right }
{}

/// What values keep by the table of the code, in a coherent cluster: the mark of a lock stands in a slot alone, and each holder of a mutable reference has at most eight stars.
pub fn values_keep_to_code()
    ensures marks_in_slots { EachCoherentEventKeeps marks_in_slots }
    ensures holders_short { EachCoherentEventKeeps holders_short }
{}
