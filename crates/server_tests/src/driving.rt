//! A server that is driven by hand through the events of a run.

ghost use Rattle.std.specs.Prelude.{◌≡◌, ◌<◌, ◌≤◌, true, IsSome, Some, IfOk, OnOk};
ghost use Rattle.journal.specs.Journals.{NamesItsThread};
ghost use Rattle.server_core.specs.Rooms.{HasRoom};
ghost use Rattle.server_tests.specs.Driving.{again, done, steps_and_deliveries};

use fr_base::{NoMemory, ThreadNo};
use journal::{Entry, Journal};
use server_core::Server;
use server_model::What;

// Room for an event; a request that is refused is made once more.
fn room(server: &mut Server, what: &What) -> Result<(), NoMemory>
    ensures state { server.new.state ≡ server.old.state }
    ensures kept { (server.new.code ≡ server.old.code) × (server.new.options ≡ server.old.options) }
    ensures room { OnOk result (HasRoom what.now server.new) }
{
    match server.room(*what) {
        Ok(()) => Ok(()),
        Err(_) => server.room(*what),
    }
}

// Does an event.
#[tactic(auto, using(crate::proofs::DrivingLemmas::finds, crate::proofs::DrivingLemmas::does_it))]
fn act(server: &mut Server, what: &What) -> Result<Entry, NoMemory>
    requires { IsSome (done server.old.code server.old.options what.now server.old.state) }
    ensures done { IfOk result (λ e. done server.old.code server.old.options what.now server.old.state ≡ Some (server.new.state, e)) }
    ensures kept { (server.new.code ≡ server.old.code) × (server.new.options ≡ server.old.options) }
    ensures names { IfOk result NamesItsThread }
{
    room(server, what)?;
    Ok(server.act(*what))
}

// Does an event so many times.
#[tactic(auto, using(crate::proofs::DrivingLemmas::first_done, crate::proofs::DrivingLemmas::others_done, crate::proofs::DrivingLemmas::none_left))]
fn repeat(
    server: &mut Server,
    what: &What,
    times: u32,
    journal: &mut Journal,
) -> Result<(), NoMemory>
    requires { IsSome (again server.old.code server.old.options what.now times server.old.state) }
    ensures state { OnOk result (again server.old.code server.old.options what.now times server.old.state ≡ Some server.new.state) }
    ensures kept { (server.new.code ≡ server.old.code) × (server.new.options ≡ server.old.options) }
{
    let mut left = times;
    'events: while left > 0 {
        let entry = act(server, what)?;
        journal.push(entry)?;
        left -= 1;
    }
    Ok(())
}

/// The main thread steps so many times, and then so many times the oldest message is delivered; the entries go into the journal.
#[tactic(auto, using(crate::proofs::DrivingLemmas::first_whole, crate::proofs::DrivingLemmas::then_left))]
pub fn drive(
    server: &mut Server,
    steps: u32,
    deliveries: u32,
    journal: &mut Journal,
) -> Result<(), NoMemory>
    requires { IsSome (steps_and_deliveries server.old.code server.old.options steps deliveries server.old.state) }
{
    let step = What::Step(ThreadNo::from_number(0));
    repeat(server, &step, steps, journal)?;
    let delivery = What::Deliver(0);
    repeat(server, &delivery, deliveries, journal)
}
