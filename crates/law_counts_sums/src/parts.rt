//! The sums that every event is to keep are parts of coherent memory, and handing messages over changes none of them.

ghost use Rattle.law_counts_sums.specs.Laws.{HandOverNewerLaw, NotedAtHome, NotedGoOn, OneAnswer, OneResult, PairsNoted, SoundHasSums, SoundNames, StartHas, StartHasSums, TaskValuesOwed};

/// A sound cluster has all of them, so that what the laws of events ask for holds in each coherent one.
pub fn sound_has_sums()
    ensures { SoundHasSums }
{}

/// The start of any code, with any options, has all of them.
pub fn start_has_sums()
    ensures sums { StartHasSums }
    ensures answers { StartHas OneAnswer }
    ensures pairs { StartHas PairsNoted }
    ensures going { StartHas NotedGoOn }
    ensures homes { StartHas NotedAtHome }
    ensures results { StartHas OneResult }
    ensures owed { StartHas TaskValuesOwed }
{}

/// The messages that an event appended wait at their servers then, and no sum is another one.
pub fn handing_over_newer()
    ensures { HandOverNewerLaw }
{}

/// In a sound cluster the words, threads and mutexes that are named, and the threads that ask, are of servers that are there.
pub fn sound_names()
    ensures { SoundNames }
{}
