//! Names, acts and labels as words of a row.

use fr_base::{Fresh, Label, MutexNo, ObjNo, Plain, Released, ThreadNo};
use global_addr::Word;
use journal::Act;

/// The two parts of a text around its first letter that is this one, or the text and nothing.
pub fn cut(text: &str, between: char) -> (&str, &str) {
    match text.split_once(between) {
        Some(parts) => parts,
        None => (text, ""),
    }
}

/// The thread of a server and a count.
pub fn thread_of(text: &str) -> Option<ThreadNo> {
    let (server, count) = cut(text, '.');
    let server = server.parse::<u8>().ok()?;
    let count = count.parse::<u32>().ok()?;
    Some(ThreadNo::new(server, count))
}

// The mutex of a server and a count.
fn mutex_of(text: &str) -> Option<MutexNo> {
    let (home, count) = cut(text, '.');
    let home = home.parse::<u8>().ok()?;
    let count = count.parse::<u32>().ok()?;
    Some(MutexNo { home, count })
}

// The object of a thread and a count.
fn object_of(text: &str) -> Option<ObjNo> {
    let (thread, count) = cut(text, '#');
    let thread = thread_of(thread)?;
    let count = count.parse::<u64>().ok()?;
    Some(ObjNo { thread, count })
}

// The word of a colour, a server and an address.
fn word_of(text: &str) -> Option<Word> {
    let (colour, spot) = cut(text, '.');
    let (server, address) = cut(spot, '.');
    let colour = colour.parse::<u16>().ok()?;
    let server = server.parse::<u8>().ok()?;
    let address = address.parse::<u32>().ok()?;
    Some(Word::pack(colour, server, u64::from(address)))
}

fn number_of(text: &str) -> Option<u8> {
    text.parse::<u8>().ok()
}

/// The names that a plain step took.
pub fn fresh_of(text: &str) -> Option<Fresh> {
    let (kind, names) = cut(text, ':');
    let (first, second) = cut(names, ',');
    match kind {
        "step" => Some(Fresh::None),
        "thread" => Some(Fresh::Thread(thread_of(first)?)),
        "threads" => Some(Fresh::Threads(thread_of(first)?, thread_of(second)?)),
        "mutex" => Some(Fresh::Mutex(mutex_of(first)?)),
        _ => None,
    }
}

// An act on an object under a word.
fn object_act(kind: &str, object: ObjNo, word: Word) -> Option<Act> {
    match kind {
        "make" => Some(Act::Make(object, word)),
        "local" => Some(Act::Local(object, word)),
        "hit" => Some(Act::Hit(object, word)),
        "ask" => Some(Act::Ask(object, word)),
        "fill" => Some(Act::Fill(object, word)),
        "pull" => Some(Act::Pull(object, word)),
        "condemn" => Some(Act::Condemn(object, word)),
        "free" => Some(Act::Free(object, word)),
        _ => None,
    }
}

// An act on an object under a word, with a server or another word.
fn sent_act(kind: &str, object: ObjNo, word: Word, more: &str) -> Option<Act> {
    match kind {
        "serve" => Some(Act::Serve(object, word, number_of(more)?)),
        "give" => Some(Act::Give(object, word, number_of(more)?)),
        "take" => Some(Act::Take(object, word, word_of(more)?)),
        "tint" => Some(Act::Tint(object, word, word_of(more)?)),
        "renew" => Some(Act::Renew(object, word, word_of(more)?)),
        _ => None,
    }
}

// An act on a mutex.
fn mutex_act(kind: &str, mutex: MutexNo, rest: &str) -> Option<Act> {
    let (thread, server) = cut(rest, ':');
    match kind {
        "asklock" => Some(Act::AskLock(mutex)),
        "grant" => Some(Act::Grant(mutex, thread_of(thread)?, number_of(server)?)),
        "giveback" => Some(Act::GiveBack(mutex)),
        "askdup" => Some(Act::AskDup(mutex)),
        "dupped" => Some(Act::Dupped(mutex, thread_of(thread)?, number_of(server)?)),
        "letgo" => Some(Act::LetGo(Released::Mutex(mutex))),
        _ => None,
    }
}

// An act on a thread.
fn thread_act(kind: &str, thread: ThreadNo, rest: &str) -> Option<Act> {
    let (by, server) = cut(rest, ':');
    match kind {
        "start" => Some(Act::Start(thread, number_of(by)?)),
        "askjoin" => Some(Act::AskJoin(thread)),
        "answer" => Some(Act::Answer(thread, thread_of(by)?, number_of(server)?)),
        "finish" => Some(Act::Finish(thread)),
        "depart" => Some(Act::Depart(thread, number_of(by)?)),
        _ => None,
    }
}

// An act with an object and a word in front.
fn memory_act(kind: &str, first: &str, rest: &str) -> Option<Act> {
    let (word, more) = cut(rest, ':');
    let object = object_of(first)?;
    let word = word_of(word)?;
    if more.is_empty() {
        object_act(kind, object, word)
    } else {
        sent_act(kind, object, word, more)
    }
}

/// The act of a word of a row.
pub fn act_of(text: &str) -> Option<Act> {
    let (kind, rest) = cut(text, ':');
    let (first, rest) = cut(rest, ':');
    match kind {
        "evict" => Some(Act::Evict(word_of(first)?)),
        "asklock" | "grant" | "giveback" | "askdup" | "dupped" | "letgo" => {
            mutex_act(kind, mutex_of(first)?, rest)
        }
        "start" | "askjoin" | "answer" | "finish" | "depart" => {
            thread_act(kind, thread_of(first)?, rest)
        }
        _ => memory_act(kind, first, rest),
    }
}

// A number of a label.
fn plain_of(text: &str) -> Option<Plain> {
    Some(Plain::Int(text.parse::<i64>().ok()?))
}

/// The label of a word of a row.
pub fn label_of(text: &str) -> Option<Label> {
    let (kind, rest) = cut(text, ':');
    let (first, value) = cut(rest, ':');
    match kind {
        "make" => Some(Label::Make(object_of(first)?, plain_of(value)?)),
        "load" => Some(Label::Load(object_of(first)?, plain_of(value)?)),
        "store" => Some(Label::Store(object_of(first)?, plain_of(value)?)),
        "drop" => Some(Label::Drop(object_of(first)?)),
        "print" => Some(Label::Print(first.parse::<i64>().ok()?)),
        "lock" => Some(Label::Lock(mutex_of(first)?)),
        "unlock" => Some(Label::Unlock(mutex_of(first)?)),
        "start" => Some(Label::Start(thread_of(first)?)),
        "end" => Some(Label::End(thread_of(first)?)),
        _ => None,
    }
}
