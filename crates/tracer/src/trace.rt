//! The trace: a line for each entry of a journal.

ghost use Rattle.std.specs.Prelude.{◌≡◌, ◌++◌, ◌∷◌, [], IfOk, OnOk, codes, string_bytes};
ghost use Rattle.std.specs.Fmt.{decimal};
ghost use Rattle.tracer.specs.TraceText.{act_text, acts_text, entry_text, label_text, labels_text, mutex_field, names_text, object_field, pair_fields, server_field, step_text, thread_field, trace, value_fields, who_text, word_field};

use crate::names::{add_object, add_plain, add_released, add_signed, add_word};
use fr_base::{Fresh, Label, MutexNo, NoMemory, ObjNo, Plain, ThreadNo};
use global_addr::Word;
use journal::{Act, Entry, Journal, add_mutex, add_number, add_thread};
use std::alloc::Global;

// Adds a colon and the object.
fn add_object_field(text: &mut String, object: ObjNo) -> Result<(), NoMemory>
    ensures { OnOk result (string_bytes text.new ≡ string_bytes text.old ++ object_field object) }
{
    text.push_str(":")?;
    add_object(text, object)
}

// Adds a colon and the word.
fn add_word_field(text: &mut String, word: Word) -> Result<(), NoMemory>
    ensures { OnOk result (string_bytes text.new ≡ string_bytes text.old ++ word_field word) }
{
    text.push_str(":")?;
    add_word(text, word)
}

// Adds a colon and the server.
fn add_server_field(text: &mut String, server: u8) -> Result<(), NoMemory>
    ensures { OnOk result (string_bytes text.new ≡ string_bytes text.old ++ server_field server) }
{
    text.push_str(":")?;
    add_number(text, u64::from(server))
}

// Adds a colon and the thread.
fn add_thread_field(text: &mut String, thread: ThreadNo) -> Result<(), NoMemory>
    ensures { OnOk result (string_bytes text.new ≡ string_bytes text.old ++ thread_field thread) }
{
    text.push_str(":")?;
    add_thread(text, thread)
}

// Adds a colon and the mutex.
fn add_mutex_field(text: &mut String, mutex: MutexNo) -> Result<(), NoMemory>
    ensures { OnOk result (string_bytes text.new ≡ string_bytes text.old ++ mutex_field mutex) }
{
    text.push_str(":")?;
    add_mutex(text, mutex)
}

// Adds an object and the word that it has.
fn add_pair(text: &mut String, name: &str, object: ObjNo, word: Word) -> Result<(), NoMemory>
    ensures { OnOk result (string_bytes text.new ≡ string_bytes text.old ++ (name.now ++ pair_fields object word)) }
{
    text.push_str(name)?;
    add_object_field(text, object)?;
    add_word_field(text, word)
}

// Adds an object, its word and the server that it goes to.
fn add_sent(
    text: &mut String,
    name: &str,
    object: ObjNo,
    word: Word,
    server: u8,
) -> Result<(), NoMemory>
    ensures { OnOk result (string_bytes text.new ≡ string_bytes text.old ++ (name.now ++ pair_fields object word ++ server_field server)) }
{
    add_pair(text, name, object, word)?;
    add_server_field(text, server)
}

// Adds an object, the word that it had and its new word.
fn add_reworded(
    text: &mut String,
    name: &str,
    object: ObjNo,
    old: Word,
    new: Word,
) -> Result<(), NoMemory>
    ensures { OnOk result (string_bytes text.new ≡ string_bytes text.old ++ (name.now ++ pair_fields object old ++ word_field new)) }
{
    add_pair(text, name, object, old)?;
    add_word_field(text, new)
}

// Adds a mutex.
fn add_of_mutex(text: &mut String, name: &str, mutex: MutexNo) -> Result<(), NoMemory>
    ensures { OnOk result (string_bytes text.new ≡ string_bytes text.old ++ (name.now ++ mutex_field mutex)) }
{
    text.push_str(name)?;
    add_mutex_field(text, mutex)
}

// Adds a mutex, and the thread that gets it at its server.
fn add_given(
    text: &mut String,
    name: &str,
    mutex: MutexNo,
    thread: ThreadNo,
    server: u8,
) -> Result<(), NoMemory>
    ensures { OnOk result (string_bytes text.new ≡ string_bytes text.old ++ (name.now ++ mutex_field mutex ++ thread_field thread ++ server_field server)) }
{
    add_of_mutex(text, name, mutex)?;
    add_thread_field(text, thread)?;
    add_server_field(text, server)
}

// Adds a thread.
fn add_of_thread(text: &mut String, name: &str, thread: ThreadNo) -> Result<(), NoMemory>
    ensures { OnOk result (string_bytes text.new ≡ string_bytes text.old ++ (name.now ++ thread_field thread)) }
{
    text.push_str(name)?;
    add_thread_field(text, thread)
}

// Adds a thread and the server that it goes to.
fn add_moved(text: &mut String, name: &str, thread: ThreadNo, server: u8) -> Result<(), NoMemory>
    ensures { OnOk result (string_bytes text.new ≡ string_bytes text.old ++ (name.now ++ thread_field thread ++ server_field server)) }
{
    add_of_thread(text, name, thread)?;
    add_server_field(text, server)
}

// Adds an object and a value.
fn add_value(text: &mut String, name: &str, object: ObjNo, value: Plain) -> Result<(), NoMemory>
    ensures { OnOk result (string_bytes text.new ≡ string_bytes text.old ++ (name.now ++ value_fields object value)) }
{
    text.push_str(name)?;
    add_object_field(text, object)?;
    text.push_str(":")?;
    add_plain(text, value)
}

// Adds an act.
fn add_act(text: &mut String, act: Act) -> Result<(), NoMemory>
    ensures { OnOk result (string_bytes text.new ≡ string_bytes text.old ++ act_text act) }
{
    match act {
        Act::Make(object, word) => add_pair(text, "make", object, word),
        Act::Local(object, word) => add_pair(text, "local", object, word),
        Act::Hit(object, word) => add_pair(text, "hit", object, word),
        Act::Ask(object, word) => add_pair(text, "ask", object, word),
        Act::Serve(object, word, server) => add_sent(text, "serve", object, word, server),
        Act::Fill(object, word) => add_pair(text, "fill", object, word),
        Act::Pull(object, word) => add_pair(text, "pull", object, word),
        Act::Give(object, word, server) => add_sent(text, "give", object, word, server),
        Act::Take(object, old, new) => add_reworded(text, "take", object, old, new),
        Act::Tint(object, old, new) => add_reworded(text, "tint", object, old, new),
        Act::Renew(object, old, new) => add_reworded(text, "renew", object, old, new),
        Act::Condemn(object, word) => add_pair(text, "condemn", object, word),
        Act::Free(object, word) => add_pair(text, "free", object, word),
        Act::Evict(word) => {
            text.push_str("evict")?;
            add_word_field(text, word)
        }
        Act::AskLock(mutex) => add_of_mutex(text, "asklock", mutex),
        Act::Grant(mutex, thread, server) => add_given(text, "grant", mutex, thread, server),
        Act::GiveBack(mutex) => add_of_mutex(text, "giveback", mutex),
        Act::AskDup(mutex) => add_of_mutex(text, "askdup", mutex),
        Act::Dupped(mutex, thread, server) => add_given(text, "dupped", mutex, thread, server),
        Act::LetGo(released) => {
            text.push_str("letgo:")?;
            add_released(text, released)
        }
        Act::Start(thread, server) => add_moved(text, "start", thread, server),
        Act::AskJoin(thread) => add_of_thread(text, "askjoin", thread),
        Act::Answer(thread, by, server) => {
            add_of_thread(text, "answer", thread)?;
            add_thread_field(text, by)?;
            add_server_field(text, server)
        }
        Act::Finish(thread) => add_of_thread(text, "finish", thread),
        Act::Depart(thread, server) => add_moved(text, "depart", thread, server),
    }
}

// Adds a label.
fn add_label(text: &mut String, label: Label) -> Result<(), NoMemory>
    ensures { OnOk result (string_bytes text.new ≡ string_bytes text.old ++ label_text label) }
{
    match label {
        Label::Make(object, value) => add_value(text, "make", object, value),
        Label::Load(object, value) => add_value(text, "load", object, value),
        Label::Store(object, value) => add_value(text, "store", object, value),
        Label::Drop(object) => {
            text.push_str("drop")?;
            add_object_field(text, object)
        }
        Label::Print(number) => {
            text.push_str("print:")?;
            add_signed(text, number)
        }
        Label::Lock(mutex) => add_of_mutex(text, "lock", mutex),
        Label::Unlock(mutex) => add_of_mutex(text, "unlock", mutex),
        Label::Start(thread) => add_of_thread(text, "start", thread),
        Label::End(thread) => add_of_thread(text, "end", thread),
    }
}

// Adds the thread, or a hyphen.
fn add_who(text: &mut String, thread: Option<ThreadNo>) -> Result<(), NoMemory>
    ensures { OnOk result (string_bytes text.new ≡ string_bytes text.old ++ who_text thread) }
{
    match thread {
        Some(thread) => add_thread(text, thread),
        None => {
            text.push_str("-")?;
            Ok(())
        }
    }
}

// Adds a step by the names that it took.
fn add_names(text: &mut String, fresh: Fresh) -> Result<(), NoMemory>
    ensures { OnOk result (string_bytes text.new ≡ string_bytes text.old ++ names_text fresh) }
{
    match fresh {
        Fresh::None => text.push_str("step")?,
        Fresh::Thread(thread) => add_of_thread(text, "thread", thread)?,
        Fresh::Threads(thread, other) => {
            add_of_thread(text, "threads", thread)?;
            text.push_str(",")?;
            add_thread(text, other)?;
        }
        Fresh::Mutex(mutex) => add_of_mutex(text, "mutex", mutex)?,
    }
    Ok(())
}

// Adds what step the entry did, or a hyphen.
fn add_step(text: &mut String, done: &Option<Fresh>) -> Result<(), NoMemory>
    ensures { OnOk result (string_bytes text.new ≡ string_bytes text.old ++ step_text done.now) }
{
    match done {
        Some(fresh) => add_names(text, *fresh),
        None => {
            text.push_str("-")?;
            Ok(())
        }
    }
}

// Adds the acts, each behind a space.
fn add_acts(text: &mut String, acts: &[Act]) -> Result<(), NoMemory>
    ensures { OnOk result (string_bytes text.new ≡ string_bytes text.old ++ acts_text acts.now) }
{
    'acts: for act in acts {
        text.push_str(" ")?;
        add_act(text, *act)?;
    }
    Ok(())
}

// Adds the labels, each behind a space.
fn add_labels(text: &mut String, labels: &[Label]) -> Result<(), NoMemory>
    ensures { OnOk result (string_bytes text.new ≡ string_bytes text.old ++ labels_text labels.now) }
{
    'labels: for label in labels {
        text.push_str(" ")?;
        add_label(text, *label)?;
    }
    Ok(())
}

// Adds an entry's line.
fn add_entry(text: &mut String, entry: &Entry) -> Result<(), NoMemory>
    ensures { OnOk result (string_bytes text.new ≡ string_bytes text.old ++ entry_text entry.now) }
{
    add_number(text, u64::from(entry.server))?;
    text.push_str(" ")?;
    add_who(text, entry.thread)?;
    text.push_str(" ")?;
    add_step(text, &entry.done)?;
    add_acts(text, entry.acts.as_slice())?;
    text.push_str(" |")?;
    add_labels(text, entry.labels.as_slice())?;
    text.push_str("\n")?;
    Ok(())
}

/// The trace of a journal: the number of its entries, and a line for each: the server, the thread or `-`, the step (`-`, `step`,
/// or the names that it took), the acts, a bar and the labels. `NoMemory` alone is refused. It takes time in the length of the
/// text.
pub fn trace_text(alloc: Global, journal: &Journal) -> Result<String, NoMemory>
    ensures { IfOk result (λ text. string_bytes text ≡ trace journal.now.items) }
{
    let mut text = String::from_str(alloc, "trace ")?;
    add_number(&mut text, journal.len())?;
    text.push_str("\n")?;
    'entries: for entry in journal.as_slice() {
        add_entry(&mut text, entry)?;
    }
    Ok(text)
}
