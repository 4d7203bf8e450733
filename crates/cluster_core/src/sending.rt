//! All messages in outboxes, handed over.

ghost use Rattle.std.specs.Prelude.{◌≡◌, ◌<◌, ◌+◌, length, IfOk};
ghost use Rattle.server_model.specs.Clusters.{outboxes};
ghost use Rattle.cluster_core.specs.Views.{AreNumbered, states, events_in};
ghost use Rattle.cluster_core.specs.Rooms.{HaveRoomFor};
ghost use Rattle.cluster_core.specs.Rows.{IsSameRun};
ghost use Rattle.cluster_core.specs.Handing.{handed, AreEmpty, NoneSent};

use crate::row::accept_at;
use fr_base::NoMemory;
use server_core::Server;

// How many messages some servers have in their outboxes together.
pub(crate) fn count_sent(servers: &[Server]) -> Result<usize, NoMemory>
    ensures { IfOk result (λ n. n ≡ length (outboxes (states servers.now))) }
{
    match servers {
        [] => Ok(0),
        [server, rest @ ..] => {
            let others = count_sent(rest)?;
            match others.checked_add(server.sending()) {
                Some(all) => Ok(all),
                None => Err(NoMemory),
            }
        }
    }
}

// Hands over the messages of one server, those before it having none left.
fn send_from(servers: &mut Vec<Server>, at: usize)
    requires within { at < length servers.old.items }
    requires numbered { AreNumbered 0 (states servers.old.items) }
    requires before { AreEmpty at (states servers.old.items) }
    requires room { HaveRoomFor (outboxes (states servers.old.items)) servers.old.items }
    ensures handed { handed (states servers.new.items) ≡ handed (states servers.old.items) }
    ensures empty { AreEmpty (at + 1) (states servers.new.items) }
    ensures room { HaveRoomFor (outboxes (states servers.new.items)) servers.new.items }
    ensures run { IsSameRun servers.old.items servers.new.items }
    ensures events { events_in (states servers.new.items) ≡ events_in (states servers.old.items) }
{
    'messages: while let Some((target, message)) = servers[at].outbox() {
        accept_at(servers, target, message);
    }
}

// Hands over all messages, one server's after another's.
pub(crate) fn send_all(servers: &mut Vec<Server>)
    requires numbered { AreNumbered 0 (states servers.old.items) }
    requires room { HaveRoomFor (outboxes (states servers.old.items)) servers.old.items }
    ensures handed { states servers.new.items ≡ handed (states servers.old.items) }
    ensures sent { NoneSent (states servers.new.items) }
    ensures run { IsSameRun servers.old.items servers.new.items }
    ensures events { events_in (states servers.new.items) ≡ events_in (states servers.old.items) }
{
    'servers: for at in 0..servers.len() {
        send_from(servers, at);
    }
}
