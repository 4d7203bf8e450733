//! Moving a thread from a server with many threads to one with few.

ghost use Rattle.std.specs.Prelude.{◌≡◌, ◌+◌, ◌^◌, ◌<◌, ◌≤◌, nat_lt, length, option_map, Some, IfSome};
ghost use Rattle.drive_model.specs.Balance.{balance, first_best, shift_between};

use fr_base::ThreadNo;
use std::marker::Model;

/// How many threads of a server aren't over, and which one of them can be moved, if any.
#[derive(Clone, Copy, Debug, PartialEq, Eq)]
pub struct Load {
    pub threads: u64,
    pub candidate: Option<ThreadNo>,
}

impl Model for Load {
    ghost use Rattle.drive_model.specs.Balance.{Load};

    ghost Value = { Load };

    ghost view = { λ l. record { threads = l.threads; candidate = l.candidate } };

    ghost inverse = { λ l. record { threads = l.threads; candidate = l.candidate } };
}

// A server with its load.
#[derive(Clone, Copy)]
struct Loaded {
    server: usize,
    load: Load,
}

impl Model for Loaded {
    ghost use Rattle.drive_model.specs.Balance.{Loaded};

    ghost Value = { Loaded };

    ghost view = { λ l. record { server = l.server; load = l.load } };

    ghost inverse = { λ l. record { server = l.server; load = l.load } };
}

// The first server with the greatest load: this one, or one of those whose loads from that number on are these.
fn greatest(best: Loaded, server: usize, loads: &[Load]) -> Loaded
    requires few { server + length loads.now < 2 ^ 64 }
    requires before { best.server < server }
    ensures best { result ≡ first_best (λ a b. nat_lt b a) best server loads.now }
    ensures within { result.server < server + length loads.now }
{
    match loads {
        [] => best,
        [load, rest @ ..] if best.load.threads < load.threads => {
            greatest(
                Loaded {
                    server,
                    load: *load,
                },
                server + 1,
                rest,
            )
        }
        [_, rest @ ..] => greatest(best, server + 1, rest),
    }
}

// The first with the least load.
fn least(best: Loaded, server: usize, loads: &[Load]) -> Loaded
    requires few { server + length loads.now < 2 ^ 64 }
    requires before { best.server < server }
    ensures best { result ≡ first_best (λ a b. nat_lt a b) best server loads.now }
    ensures within { result.server < server + length loads.now }
{
    match loads {
        [] => best,
        [load, rest @ ..] if load.threads < best.load.threads => {
            least(
                Loaded {
                    server,
                    load: *load,
                },
                server + 1,
                rest,
            )
        }
        [_, rest @ ..] => least(best, server + 1, rest),
    }
}

// The candidate of the one goes to the other, where their loads differ by two at least.
fn shift_between(most: Loaded, least: Loaded) -> Option<(ThreadNo, u8)>
    requires few { least.server < 2 ^ 8 }
    ensures { result ≡ option_map (λ s. (s.thread, s.target)) (shift_between most least) }
{
    if most.load.threads.saturating_sub(least.load.threads) < 2 {
        return None;
    }
    match most.load.candidate {
        Some(thread) => Some((thread, least.server as u8)),
        None => None,
    }
}

/// Which thread is moved, and to which server, by the loads of the servers in their order (at most 256): the candidate of the server
/// with the greatest load goes to that with the least; of two with the same load the lower number counts. `None` exactly where
/// these loads differ by less than two, or that server has no candidate. Linear, without memory.
pub fn balance(loads: &[Load]) -> Option<(ThreadNo, u8)>
    requires few { length loads.now ≤ 256 }
    ensures { result ≡ option_map (λ s. (s.thread, s.target)) (balance loads.now) }
{
    let [first, rest @ ..] = loads else {
        return None;
    };
    let first = Loaded {
        server: 0,
        load: *first,
    };
    shift_between(greatest(first, 1, rest), least(first, 1, rest))
}

/// The server with the greatest load (of two with the same load the lower number), which `balance` takes its thread from; `None` exactly where there are no loads.
/// Linear, without memory.
pub fn busiest(loads: &[Load]) -> Option<u8>
    requires few { length loads.now ≤ 256 }
    ensures { IfSome (balance loads.now) (λ s. result ≡ Some s.source) }
{
    let [first, rest @ ..] = loads else {
        return None;
    };
    let first = Loaded {
        server: 0,
        load: *first,
    };
    Some(greatest(first, 1, rest).server as u8)
}
