//! The servers take their desks before a round, and rise from them after it.

ghost use Rattle.std.specs.Prelude.{◌≡◌, ◌≤◌, ◌++◌, true, length, IfOk, OnOk};
ghost use Rattle.drust_run.specs.Desks.{AreFresh, NoneLacks, choices_at, entries_at, servers_at};

use crate::desk::Desk;
use controller::Choice;
use fr_base::NoMemory;
use journal::Journal;
use server_core::Server;
use std::alloc::Global;

// The servers at their desks, each with its generator.
pub(crate) fn seat(
    alloc: Global,
    servers: Vec<Server>,
    choices: Vec<Choice>,
) -> Result<Vec<Desk>, NoMemory>
    requires as_many { length choices.items ≡ length servers.items }
    requires few { length servers.items ≤ 64 }
    ensures servers { IfOk result (λ ds. servers_at ds.items ≡ servers.items) }
    ensures choices { IfOk result (λ ds. choices_at ds.items ≡ choices.items) }
    ensures fresh { IfOk result (λ ds. AreFresh ds.items) }
{
    let mut desks = Vec::with_capacity(alloc, servers.len())?;
    let mut choices = choices.into_iter();
    'servers: for server in servers {
        let Some(choice) = choices.next() else {
            unreachable!()
        };
        desks.push(Desk {
            number: desks.len() as u8,
            server,
            choice,
            entries: Journal::new(alloc),
            lacks: false,
        })?;
    }
    Ok(desks)
}

// Whether memory was wanting at no desk.
pub(crate) fn none_lacks(desks: &[Desk]) -> bool
    ensures { result ≡ true → NoneLacks desks.now }
{
    match desks {
        [] => true,
        [desk, rest @ ..] => !desk.lacks && none_lacks(rest),
    }
}

// The servers and their generators again, and what each did is at the end of the journal, in the order of the servers.
pub(crate) fn rise(
    alloc: Global,
    desks: Vec<Desk>,
    journal: &mut Journal,
) -> Result<(Vec<Server>, Vec<Choice>), NoMemory>
    ensures servers { IfOk result (λ r. r.0.items ≡ servers_at desks.items) }
    ensures choices { IfOk result (λ r. r.1.items ≡ choices_at desks.items) }
    ensures journal { OnOk result (journal.new.items ≡ journal.old.items ++ entries_at desks.items) }
{
    let mut servers = Vec::with_capacity(alloc, desks.len())?;
    let mut choices = Vec::with_capacity(alloc, desks.len())?;
    'desks: for desk in desks {
        let Desk {
            server,
            choice,
            mut entries,
            ..
        } = desk;
        journal.append(&mut entries)?;
        servers.push(server)?;
        choices.push(choice)?;
    }
    Ok((servers, choices))
}
