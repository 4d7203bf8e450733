//! Laws of coherent memory.

ghost use Rattle.coherent_samples.specs.Along.{RowsStayCoherent};
ghost use Rattle.coherent_samples.specs.Chosen.{ChosenStayCoherent};
ghost use Rattle.coherent_samples.specs.ChosenEnds.{ChosenEnd};
ghost use Rattle.coherent_samples.specs.LeftRuns.{RunsAreLeft};
ghost use Rattle.coherent_samples.specs.OneHeapRuns.{OneHeapsCompute};
ghost use Rattle.coherent_samples.specs.OneEvent.{OneEventKeeps};
ghost use Rattle.coherent_samples.specs.Sound.{SoundCompute};
ghost use Rattle.coherent_samples.specs.Broken.{MemoryBreaks, WalksBreak};
ghost use Rattle.coherent_samples.specs.BrokenRest.{RequestsBreak, SharingBreaks, RootedBreaks, NamesBreak};

/// Clusters that break no sentence.
pub fn sound_compute()
    ensures { SoundCompute }
{}

/// Clusters that each break one sentence, and no other.
pub fn breaks_compute()
    ensures memory { MemoryBreaks }
    ensures walks { WalksBreak }
    ensures requests { RequestsBreak }
    ensures sharing { SharingBreaks }
    ensures rooted { RootedBreaks }
    ensures names { NamesBreak }
{}

/// After each event of the rows no sentence is broken.
pub fn rows_stay_coherent()
    ensures { RowsStayCoherent }
{}

/// The one heap of a cluster is the state of the machine of compiled code, after each event of the rows without mutexes and pairs of threads,
/// and the journal's labels are that machine's.
pub fn one_heaps_compute()
    ensures { OneHeapsCompute }
{}

/// After each event of the rows the coloured heap of the cluster is the state that the journal leaves, and the counts agree.
pub fn runs_are_left()
    ensures { RunsAreLeft }
{}

/// After each of many events that were chosen among all enabled ones no sentence is broken.
pub fn chosen_stay_coherent()
    ensures { ChosenStayCoherent }
{}

/// The journal of a run under chosen events leaves the cluster's coloured heap, and its one heap is the state of the machine of compiled code.
pub fn chosen_ends_are_left()
    ensures { ChosenEnd }
{}

/// From clusters that no run need reach, each enabled event leaves no sentence broken.
pub fn one_event_keeps()
    ensures { OneEventKeeps }
{}
