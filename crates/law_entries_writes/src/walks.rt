//! Acts of a place that is followed for writing, in the coloured heap.

ghost use Rattle.law_entries_writes.specs.walks.Walked.{WrittenPlacesRun};

/// Where a thread of a coherent cluster with few events assigns through stars or moves out through them, the acts on its way are allowed one after another in each coloured heap that the
/// cluster stands for: each box on the way gets the next colour, or at the last one its object another address, a reference counts a hop, and at the end the place is ready, or an object
/// that lies elsewhere is asked for.
pub fn written_places_run()
    ensures { WrittenPlacesRun }
{}
