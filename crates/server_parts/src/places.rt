//! Where a place leads inside a server, and values put there.

ghost use Rattle.std.specs.Prelude.{◌≡◌, ◌+◌, ◌<◌, ◌≤◌, true, Some, IsSome};
ghost use Rattle.server_model.specs.Places.{on_top, written, cell_at, value_at, load_at, note_write, put_cell, put_slot, put_at, pointer_of, with_word, set_pointer};
ghost use Rattle.heap_partition.specs.Plain.{plain_of};
ghost use Rattle.server_model.specs.Work.{look};
ghost use Rattle.server_parts.specs.Hands.{hand};
ghost use Rattle.server_parts.specs.Spots.{spot, has_top};

use crate::spot::Spot;
use crate::work::Work;
use fr_base::{Label, Plain};
use global_addr::Word;
use heap_partition::{BoxPtr, Cell, Owned};
use owner_box::Partition;
use thread_state::{Thread, Value};

// The cell of a word that leads here.
fn look(partition: &Partition, word: Word) -> Option<Cell>
    ensures { result ≡ look partition.now.state word }
{
    // The check asks that each type inside a value is named where a value is moved.
    let _inside: Option<Owned> = None;
    if partition.leads_to(word) {
        Some(partition.look(word))
    } else {
        None
    }
}

/// The cell at a spot, or the copy of one.
pub fn cell_at(work: &Work, thread: &Thread, at: &Spot) -> Option<Cell>
    ensures { result ≡ cell_at (hand work.now thread.now) (spot at.now) }
{
    let _inside: Option<Owned> = None;
    let _thread = thread; // named in the contract alone
    match *at {
        Spot::Cell(word, _) => look(&work.partition, word),
        Spot::Copy(word) => work.cache.hit(word),
        _ => None,
    }
}

/// The value at a spot.
pub fn value_at(work: &Work, thread: &Thread, at: &Spot) -> Option<Value>
    ensures { result ≡ value_at (hand work.now thread.now) (spot at.now) }
{
    let _inside: Option<Owned> = None;
    match *at {
        Spot::Slot(slot) => thread.slots.get(slot as usize).copied(),
        Spot::Top => thread.temps.last().copied(),
        _ => match cell_at(work, thread, at) {
            Some(cell) => Some(Value::Own(cell.value)),
            None => None,
        },
    }
}

/// The value as labels show it.
pub fn plain_of(value: &Owned) -> Plain
    ensures { result ≡ plain_of value.now }
{
    (*value).plain()
}

/// Reading a cell or a copy is a load, and reading a slot is none.
pub fn load_at(work: &mut Work, thread: &Thread, at: &Spot)
    requires room { 0 < work.old.room }
    ensures state { load_at (spot at.now) (hand work.old thread.now) ≡ hand work.new thread.now }
    ensures spare { work.old.room ≤ work.new.room + 1 }
    ensures copies { work.new.copies ≡ work.old.copies }
{
    let _inside: Option<Owned> = None;
    if let Some(cell) = cell_at(work, thread, at) {
        work.label(Label::Load(cell.object, cell.value.plain()));
    }
}

// A mutable reference that was written through.
fn written(value: Value) -> Value
    ensures { result ≡ written value }
{
    match value {
        Value::Mut(mut reference) => {
            reference.note_write();
            Value::Mut(reference)
        }
        _ => value,
    }
}

// A write to a cell is noted on the mutable reference that led straight to it.
fn note_write(work: &Work, thread: &mut Thread, through: Option<u32>)
    ensures state { hand work.now thread.new ≡ note_write through (hand work.now thread.old) }
    ensures pc { thread.new.state.pc ≡ thread.old.state.pc }
    ensures number { thread.new.state.number ≡ thread.old.state.number }
    ensures room { thread.new.room ≡ thread.old.room }
{
    let _work = work; // named in the contract alone
    let Some(slot) = through else {
        return;
    };
    if let Some(value) = thread.slots.get(slot as usize).copied() {
        thread.slots[slot as usize] = written(value);
    }
}

// The cell gets a value.
fn put_cell(work: &mut Work, thread: &mut Thread, word: Word, through: Option<u32>, value: Owned)
    requires result { IsSome (put_cell word through value (hand work.old thread.old)) }
    ensures state { put_cell word through value (hand work.old thread.old) ≡ Some (hand work.new thread.new) }
    ensures pc { thread.new.state.pc ≡ thread.old.state.pc }
    ensures room { work.new.room ≡ work.old.room }
    ensures copies { work.new.copies ≡ work.old.copies }
    ensures number { thread.new.state.number ≡ thread.old.state.number }
    ensures thread_room { thread.new.room ≡ thread.old.room }
{
    work.partition.store(word, value);
    note_write(work, thread, through);
}

/// A slot gets a value.
pub fn put_slot(work: &Work, thread: &mut Thread, slot: u32, value: Value)
    requires result { IsSome (put_slot slot value (hand work.now thread.old)) }
    ensures state { put_slot slot value (hand work.now thread.old) ≡ Some (hand work.now thread.new) }
    ensures pc { thread.new.state.pc ≡ thread.old.state.pc }
    ensures number { thread.new.state.number ≡ thread.old.state.number }
    ensures room { thread.new.room ≡ thread.old.room }
{
    let _work = work; // named in the contract alone
    thread.slots[slot as usize] = value;
}

// The temporary value on top becomes another one.
#[tactic(auto, using(crate::proofs::PlaceLemmas::top_there, crate::proofs::PlaceLemmas::set_last))]
fn put_top(work: &Work, thread: &mut Thread, value: Value)
    requires top { has_top on_top thread.old.state.temps ≡ true }
    ensures state { put_at on_top value (hand work.now thread.old) ≡ Some (hand work.now thread.new) }
    ensures pc { thread.new.state.pc ≡ thread.old.state.pc }
    ensures number { thread.new.state.number ≡ thread.old.state.number }
    ensures room { thread.new.room ≡ thread.old.room }
{
    let _work = work; // named in the contract alone
    let last = thread.temps.len() - 1;
    thread.temps[last] = value;
}

/// A value at a spot where one stands; a cell takes owned values alone, and a copy is never written.
pub fn put_at(work: &mut Work, thread: &mut Thread, at: &Spot, value: Value)
    requires top { has_top (spot at.now) thread.old.state.temps ≡ true }
    requires result { IsSome (put_at (spot at.now) value (hand work.old thread.old)) }
    ensures state { put_at (spot at.now) value (hand work.old thread.old) ≡ Some (hand work.new thread.new) }
    ensures pc { thread.new.state.pc ≡ thread.old.state.pc }
    ensures room { work.new.room ≡ work.old.room }
    ensures copies { work.new.copies ≡ work.old.copies }
    ensures number { thread.new.state.number ≡ thread.old.state.number }
    ensures thread_room { thread.new.room ≡ thread.old.room }
{
    let _inside: Option<Owned> = None;
    match *at {
        Spot::Slot(slot) => put_slot(work, thread, slot, value),
        Spot::Top => put_top(work, thread, value),
        Spot::Cell(word, through) => match value {
            Value::Own(owned) => put_cell(work, thread, word, through, owned),
            _ => unreachable!(),
        },
        Spot::Copy(_) => unreachable!(),
        Spot::Nowhere => unreachable!(),
    }
}

/// The word and the object of a pointer to an object.
pub fn pointer_of(value: &Value) -> Option<BoxPtr>
    ensures { result ≡ pointer_of value.now }
{
    match *value {
        Value::Own(Owned::Box(pointer)) => Some(pointer),
        Value::Shared(reference) => Some(BoxPtr {
            word: reference.word,
            object: reference.object,
        }),
        Value::Mut(reference) => Some(BoxPtr {
            word: reference.word,
            object: reference.object,
        }),
        _ => None,
    }
}

// A box or a mutable reference with another word.
fn with_word(word: Word, value: Value) -> Value
    requires pointer { IsSome (with_word word value) }
    ensures { with_word word value ≡ Some result }
{
    match value {
        Value::Own(Owned::Box(pointer)) => Value::Own(Owned::Box(BoxPtr { word, ..pointer })),
        Value::Mut(mut reference) => {
            reference.took(word);
            Value::Mut(reference)
        }
        _ => unreachable!(),
    }
}

/// The pointer at a spot gets its object's new word.
#[tactic(auto, using(crate::proofs::PlaceLemmas::value_there))]
pub fn set_pointer(work: &mut Work, thread: &mut Thread, at: &Spot, word: Word)
    requires result { IsSome (set_pointer (spot at.now) word (hand work.old thread.old)) }
    ensures state { set_pointer (spot at.now) word (hand work.old thread.old) ≡ Some (hand work.new thread.new) }
    ensures pc { thread.new.state.pc ≡ thread.old.state.pc }
    ensures room { work.new.room ≡ work.old.room }
    ensures copies { work.new.copies ≡ work.old.copies }
    ensures number { thread.new.state.number ≡ thread.old.state.number }
    ensures thread_room { thread.new.room ≡ thread.old.room }
{
    let Some(value) = value_at(work, thread, at) else {
        unreachable!();
    };
    let new = with_word(word, value);
    put_at(work, thread, at, new);
}
