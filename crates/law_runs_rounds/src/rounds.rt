//! Runs in rounds are runs of events: each round has a result, its journal is one of events one after another, and the run ends.

ghost use Rattle.law_runs_rounds.specs.rounds.UnderWay.{BalancesCanMove, BalancesGoOn, EndsAreExact, RoundsEnd, RoundsGoOn, RoundsGrow, ServersCanWork, StartsAreUnderWay};

use drive_model::laws::balances_move;
use law_counts_limits::{counts_are_small, events_send_few};
use law_results_events::enabled_events_have_results;
use law_runs_coherent::starts_are_coherent;
use law_runs_whole::{going_goes_on, runs_from_starts};

/// The start of each code with a table, under options in their ranges, is under way.
pub fn starts_are_under_way()
    ensures { StartsAreUnderWay }
{
    starts_are_coherent();
}

/// If each event keeps coherent clusters coherent, then a round of a run under way has a result, and so has a balance, and the run is under way again: its journal is that of a
/// run of events, which lead to a coherent cluster, the same but for the order in which messages wait. In a round each server's events are enabled and have results, whatever the
/// other servers do, and so is the event of a balance at the server that its thread leaves.
pub fn rounds_go_on()
    ensures rounds { RoundsGoOn }
    ensures balances { BalancesGoOn }
    ensures servers { ServersCanWork }
    ensures moves { BalancesCanMove }
{
    enabled_events_have_results();
    events_send_few();
    counts_are_small();
    runs_from_starts();
    balances_move();
}

/// A round of a run that isn't done does at least one event.
pub fn rounds_grow()
    ensures { RoundsGrow }
{
    going_goes_on();
}

/// If each event keeps coherent clusters coherent, then each run in rounds, from the start of a code with a table under options in their ranges, has a result, which is under way,
/// and it is done: not going, or with as many entries as it has turns. Where it isn't going the events lead to its very cluster.
pub fn runs_in_rounds_end()
    ensures ends { RoundsEnd }
    ensures exact { EndsAreExact }
{
    starts_are_coherent();
    enabled_events_have_results();
    events_send_few();
    counts_are_small();
    runs_from_starts();
    balances_move();
    going_goes_on();
}
