//! Entries without the room that was made for their lists.

ghost use Rattle.std.specs.Prelude.{◌≡◌, IfOk};

use fr_base::{Labels, NoMemory};
use journal::{Acts, Entry};
use std::alloc::Global;

// The same entry, whose lists have no more room than they need.
pub(crate) fn fitted(alloc: Global, entry: &Entry) -> Result<Entry, NoMemory>
    ensures { IfOk result (λ e. e ≡ entry.now) }
{
    let acts = Acts::from_slice(alloc, entry.acts.as_slice())?;
    let labels = Labels::from_slice(alloc, entry.labels.as_slice())?;
    Ok(Entry {
        server: entry.server,
        thread: entry.thread,
        done: entry.done,
        acts,
        labels,
    })
}
