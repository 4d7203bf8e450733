//! That each event has a legal entry, and what follows for runs of programs.

ghost use Rattle.law_entries_events.specs.Below.law_runs_whole.runs.Runs.{EachEventIsRight};
ghost use Rattle.law_entries_events.specs.events.Leads.{EachProgramIsLeft};
ghost use Rattle.law_entries_events.specs.Below.law_runs_whole.programs.Programs.{EntriesLead};

use crate::{events_keep_coherence, objects_come_legally, programs_are_left};

/// From a coherent cluster with few events **the entry of each event is legal** in each coloured heap that the cluster stands for, whatever the event, reaches what it loads and stores, and
/// leads to one that it stands for afterwards.
pub fn entries_lead()
    ensures { EntriesLead }
{
    objects_come_legally();
}

/// So each event is right: it keeps coherence, its entry leads on, and the messages that wait are counted by its acts.
pub fn events_are_right()
    ensures { EachEventIsRight }
{
    entries_lead();
    events_keep_coherence();
}

/// So **each cluster to which fewer than 2^31 events lead from the start of a typed program is left by its journal**: the journal is legal, each entry reaches what it loads and stores, so that each
/// object is at one place under its word, and the loads, drops and messages are those that its acts tell of.
pub fn programs_are_left_by_journals()
    ensures { EachProgramIsLeft }
{
    entries_lead();
    programs_are_left();
}
