//! Acts on mutexes. Each is that of the plain machine, where there is room for what it makes.

ghost use Rattle.std.specs.Prelude.{◌≡◌, ℕ, suc, ◌<◌, ◌≤◌, ◌+◌, List, [], true, None, IsSome, vec_len, vec_capacity};
ghost use Rattle.fr_base.specs.declared.step.Fresh.TheVariants as fresh;
ghost use Rattle.fr_plain.specs.declared.value.Value.{Value};
ghost use Rattle.fr_plain.specs.Heap.{Heap as PlainHeap};
ghost use Rattle.fr_plain.specs.State.{locate, cell_of};
ghost use Rattle.fr_plain.specs.Acts.{do_mutex, do_dup, do_lock, do_unlock, unit};
ghost use Rattle.fr_plain.specs.Machine as machine;
ghost use Rattle.fr_plain.specs.Machine.{lock_waits};
ghost use Rattle.fr_plain.specs.MachineThreads.{mutex_at};
ghost use Rattle.fr_plain.specs.Threads.{release_by};
ghost use Rattle.fr_base.specs.declared.label.Plain.TheVariants as plain;
ghost use Rattle.fr_shared.specs.declared.heap.Released.TheVariants as released;
ghost use Rattle.fr_acts.specs.SlotOrder.{newest_first};
ghost use Rattle.fr_acts.specs.Acting.{state};
ghost use Rattle.fr_acts.specs.Behind.{spot_in, spots_of, spot_after, mutex_of, named, IsFound, there_behind, content_behind, can_share_behind};
ghost use Rattle.fr_acts.specs.MutexActs.{Rest, part, whole_in, last_of, Leads, IsLocked};

use crate::acts::{find, note, note_load, value_there};
use crate::spot::Where;
use fr_base::{Label, Labels, Lval, MutexNo, Plain, ThreadNo, Wait};
use fr_plain::Value;
use fr_shared::{Heap, Mutexes, Released};

// The mutex that a value names.
fn mutex_in(value: &Value) -> Option<MutexNo>
    ensures { result ≡ mutex_of value.now }
{
    match value {
        Value::Own(Plain::Mutex(mutex)) => Some(*mutex),
        Value::Own(Plain::Nothing) => None,
        Value::Own(Plain::Unit) => None,
        Value::Own(Plain::Int(_)) => None,
        Value::Own(Plain::Box(_)) => None,
        Value::Own(Plain::Task(_)) => None,
        Value::ToSlot(_) => None,
        Value::ToObject(_) => None,
        Value::Held(_) => None,
    }
}

// Where a star more leads from a value.
fn next_spot(value: &Value) -> Option<Where>
    ensures { spots_of result ≡ spot_after value.now }
{
    match value {
        Value::Own(Plain::Box(object)) => Some(Where::Cell(*object)),
        Value::ToSlot(slot) => Some(Where::Slot(*slot)),
        Value::ToObject(object) => Some(Where::Cell(*object)),
        Value::Held(_) => None,
        Value::Own(Plain::Nothing) => None,
        Value::Own(Plain::Unit) => None,
        Value::Own(Plain::Int(_)) => None,
        Value::Own(Plain::Mutex(_)) => None,
        Value::Own(Plain::Task(_)) => None,
    }
}

// Where a place leads.
fn look(thread: ThreadNo, slots: &[Value], heap: &Heap, place: Lval) -> Option<Where>
    ensures { spots_of result ≡ spot_in (locate (state thread slots.now heap.now.heap) place) }
{
    let mut spot = Where::Slot(place.slot);
    'stars: for star in 0..place.depth {
        let Some(value) = value_there(thread, slots, heap, &spot) else {
            return None;
        };
        match next_spot(&value) {
            Some(next) => spot = next,
            None => return None,
        }
    }
    Some(spot)
}

/// The mutex whose value stands at a place. Takes time in the place's stars.
pub fn mutex_behind(thread: ThreadNo, slots: &[Value], heap: &Heap, place: Lval) -> Option<MutexNo>
    ensures { result ≡ named (machine.mutex_behind (state thread slots.now heap.now.heap) place) }
{
    let Some(spot) = look(thread, slots, heap, place) else {
        return None;
    };
    match value_there(thread, slots, heap, &spot) {
        Some(value) => mutex_in(&value),
        None => None,
    }
}

/// What a lock at a place waits for: its mutex, where the content is out. Takes time in the place's stars.
pub fn lock_wait(
    thread: ThreadNo,
    slots: &[Value],
    heap: &Heap,
    mutexes: &Mutexes,
    place: Lval,
) -> Option<Wait>
    ensures { (x : Rest) → result ≡ lock_waits (whole_in x (part slots.now heap.now.heap mutexes.now.mutexes)) (machine.mutex_behind (state thread slots.now heap.now.heap) place) }
{
    let Some(mutex) = mutex_behind(thread, slots, heap, place) else {
        return None;
    };
    let Some(there) = mutexes.there(mutex) else {
        return None;
    };
    match there.content {
        Some(_) => None,
        None => Some(Wait::Lock(mutex)),
    }
}

// The mutex whose value stands at a place, with the labels of the cells that are read.
fn find_mutex(
    thread: ThreadNo,
    slots: &[Value],
    heap: &Heap,
    labels: &mut Labels,
    place: Lval,
) -> Option<MutexNo>
    requires labels { labels.old.items ≡ [] }
    requires room { place.depth + 1 ≤ labels.old.spare }
    ensures found { IsFound (machine.mutex_behind (state thread slots.now heap.now.heap) place) labels.new.items result }
    ensures spare { labels.old.spare ≤ labels.new.spare + place.depth + 1 }
{
    let Some(spot) = find(thread, slots, heap, place, labels) else {
        return None;
    };
    let Some(value) = value_there(thread, slots, heap, &spot) else {
        return None;
    };
    match mutex_in(&value) {
        Some(mutex) => {
            note_load(labels, &spot, &value);
            Some(mutex)
        }
        None => None,
    }
}

/// Gives a new name to a mutex with this content and one share, and gives its value. Takes constant time.
pub fn new_mutex(mutexes: &mut Mutexes, mutex: MutexNo, content: Value) -> Value
    requires owned { IsSome (cell_of content) }
    requires new { mutex_at mutexes.old.mutexes mutex ≡ None }
    requires room { 0 < mutexes.old.spare }
    ensures act { (t : ℕ) (slots : List Value) (heap : PlainHeap) → Leads t (fresh.Mutex mutex) (do_mutex content) (part slots heap mutexes.old.mutexes) (part slots heap mutexes.new.mutexes) result [] released.Nothing }
{
    let Value::Own(plain) = content else {
        unreachable!()
    };
    mutexes.add(mutex, plain);
    Value::Own(Plain::Mutex(mutex))
}

/// Whether a share more can be counted of the mutex behind a place. Takes time in the place's stars.
pub fn can_dup(
    thread: ThreadNo,
    slots: &[Value],
    heap: &Heap,
    mutexes: &Mutexes,
    place: Lval,
) -> bool
    ensures { result ≡ can_share_behind mutexes.now.mutexes (machine.mutex_behind (state thread slots.now heap.now.heap) place) }
{
    match mutex_behind(thread, slots, heap, place) {
        Some(mutex) => mutexes.can_share(mutex),
        None => true,
    }
}

/// Counts a share more of the mutex behind a place, and gives its value. Takes time in the place's stars.
pub fn dup(
    thread: ThreadNo,
    slots: &[Value],
    heap: &Heap,
    mutexes: &mut Mutexes,
    labels: &mut Labels,
    place: Lval,
) -> Value
    requires goes { IsSome (there_behind mutexes.old.mutexes (machine.mutex_behind (state thread slots.now heap.now.heap) place)) }
    requires few { can_share_behind mutexes.old.mutexes (machine.mutex_behind (state thread slots.now heap.now.heap) place) ≡ true }
    requires labels { labels.old.items ≡ [] }
    requires room { place.depth + 1 ≤ labels.old.spare }
    ensures act { Leads thread fresh.None (do_dup place) (part slots.now heap.now.heap mutexes.old.mutexes) (part slots.now heap.now.heap mutexes.new.mutexes) result labels.new.items released.Nothing }
    ensures spare { mutexes.new.spare ≡ mutexes.old.spare }
{
    let Some(mutex) = find_mutex(thread, slots, heap, labels, place) else {
        unreachable!()
    };
    mutexes.share(mutex);
    Value::Own(Plain::Mutex(mutex))
}

/// Takes the content of the mutex behind a place: it becomes the newest slot, above the mark of the lock. Takes time in the
/// place's stars.
pub fn lock(
    thread: ThreadNo,
    slots: &mut Vec<Value>,
    heap: &Heap,
    mutexes: &mut Mutexes,
    labels: &mut Labels,
    place: Lval,
)
    requires goes { IsSome (content_behind mutexes.old.mutexes (machine.mutex_behind (state thread slots.old.items heap.now.heap) place)) }
    requires labels { labels.old.items ≡ [] }
    requires room { place.depth + 2 ≤ labels.old.spare }
    requires slots { vec_len slots.old + 2 ≤ vec_capacity slots.old }
    ensures act { Leads thread fresh.None (do_lock place) (part slots.old.items heap.now.heap mutexes.old.mutexes) (part slots.new.items heap.now.heap mutexes.new.mutexes) unit labels.new.items released.Nothing }
    ensures spare { mutexes.new.spare ≡ mutexes.old.spare }
{
    let Some(mutex) = find_mutex(thread, slots, heap, labels, place) else {
        unreachable!()
    };
    let Some(content) = mutexes.take_content(mutex) else {
        unreachable!()
    };
    slots.push_reserved(Value::Held(mutex));
    slots.push_reserved(Value::Own(content));
    note(labels, Label::Lock(mutex));
}

/// Gives the newest slot's value back to the mutex of the lock's mark below it, and both slots go. Where the mutex has no
/// share left, the value is dropped. Gives what goes last with it. Takes time in the boxes that go.
pub fn unlock(
    slots: &mut Vec<Value>,
    heap: &mut Heap,
    mutexes: &mut Mutexes,
    labels: &mut Labels,
) -> Released
    requires goes { IsLocked (newest_first slots.old.items) }
    requires labels { labels.old.items ≡ [] }
    requires room { 0 < labels.old.spare }
    ensures act { (t : ℕ) → Leads t fresh.None do_unlock (part slots.old.items heap.old.heap mutexes.old.mutexes) (part slots.new.items heap.new.heap mutexes.new.mutexes) unit labels.new.items result }
    ensures spare { mutexes.new.spare ≡ mutexes.old.spare }
{
    let Some(Value::Own(content)) = slots.pop() else {
        unreachable!()
    };
    let Some(Value::Held(mutex)) = slots.pop() else {
        unreachable!()
    };
    note(labels, Label::Unlock(mutex));
    if mutexes.there(mutex).is_none() {
        return heap.drop_plain(content);
    }
    mutexes.give_back(mutex, content);
    Released::Nothing
}

/// Takes a share of a mutex away; with the last one the mutex goes, and its content where that is in. Gives what goes last with
/// the content. Takes time in the boxes that go.
pub fn drop_share(heap: &mut Heap, mutexes: &mut Mutexes, mutex: MutexNo) -> Released
    ensures goes { (x : Rest) (slots : List Value) (k : ℕ) → release_by (suc k) (whole_in x (part slots heap.old.heap mutexes.old.mutexes)) (plain.Mutex mutex) ≡ release_by k (whole_in x (part slots heap.new.heap mutexes.new.mutexes)) (last_of result) }
    ensures spare { mutexes.new.spare ≡ mutexes.old.spare }
{
    match mutexes.drop_share(mutex) {
        Some(content) => heap.drop_plain(content),
        None => Released::Nothing,
    }
}
