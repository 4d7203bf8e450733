//! How a cluster stands.

ghost use Rattle.std.specs.Prelude.{◌≡◌};
ghost use Rattle.thread_state.specs.View.{is_over};
ghost use Rattle.drive_model.specs.Ending.{all_in, all_threads, is_stopped, no_message, ending_of};
ghost use Rattle.cluster_core.specs.Quiet.{is_quiet};
ghost use Rattle.cluster_core.specs.Views.{states};

use fr_base::Ending3;
use server_core::Server;

// Whether no message waits there.
fn is_quiet(server: &Server) -> bool
    ensures { result ≡ is_quiet server.now.state }
{
    server.waiting() == 0 && server.sending() == 0
}

// Whether all threads there are over.
fn all_over(server: &Server) -> bool
    ensures { result ≡ all_threads is_over server.now.state.threads }
{
    server.active() == 0
}

// Whether each thread there that isn't over waits at a lock, a join or a pair: as many wait so as aren't over.
fn is_stopped(server: &Server) -> bool
    ensures { result ≡ all_threads is_stopped server.now.state.threads }
{
    let active = server.active();
    active == 0 || server.waits_at((active - 1) as usize).is_some()
}

// Whether no message waits at some servers.
fn no_message(servers: &[Server]) -> bool
    ensures { result ≡ no_message (states servers.now) }
{
    match servers {
        [] => true,
        [server, rest @ ..] => is_quiet(server) && no_message(rest),
    }
}

// Whether all threads of some servers are over.
fn are_over(servers: &[Server]) -> bool
    ensures { result ≡ all_in is_over (states servers.now) }
{
    match servers {
        [] => true,
        [server, rest @ ..] => all_over(server) && are_over(rest),
    }
}

// Whether each thread of some servers that isn't over waits at a lock, a join or a pair.
fn are_stopped(servers: &[Server]) -> bool
    ensures { result ≡ all_in is_stopped (states servers.now) }
{
    match servers {
        [] => true,
        [server, rest @ ..] => is_stopped(server) && are_stopped(rest),
    }
}

// Whether the servers have come to an end, can't go on, or do: no more is asked than tells it.
pub(crate) fn ending_of(servers: &[Server]) -> Ending3
    ensures { result ≡ ending_of (no_message (states servers.now)) (all_in is_over (states servers.now)) (all_in is_stopped (states servers.now)) }
{
    if !no_message(servers) {
        Ending3::Going
    } else if are_over(servers) {
        Ending3::Finished
    } else if are_stopped(servers) {
        Ending3::Deadlocked
    } else {
        Ending3::Going
    }
}
