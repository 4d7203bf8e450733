//! Acts that a thread does alone, on its slots and the heap.

ghost use Rattle.std.specs.Prelude.{◌≡◌, ◌<◌, ◌≤◌, ◌+◌, ◌++◌, ◌∷◌, [], false, Option, Some, None, IsSome, vec_len, vec_capacity};
ghost use Rattle.fr_base.specs.declared.label.Label.TheVariants as label;
ghost use Rattle.fr_plain.specs.State.{value_at, with_value, loads, stores, drops, led, locate, cell_of, without};
ghost use Rattle.fr_plain.specs.Acts.{act, do_read, do_borrow, do_assign, do_box, do_arith, do_print, do_drop, do_discard, do_end, do_finish, do_leave, result_of, unit, end_of};
ghost use Rattle.fr_plain.specs.Whole.{prints};
ghost use Rattle.fr_shared.specs.Releases.{released_of};
ghost use Rattle.fr_acts.specs.Acting.{state, did, releases, spot_of, IsReached};

use crate::spot::Where;
use fr_base::{Label, Labels, Lval, Op, Plain, ThreadNo};
use fr_plain::Value;
use fr_shared::{Heap, Released};

/// A label more, for which there is room.
pub fn note(labels: &mut Labels, label: Label)
    requires { 0 < labels.old.spare }
    ensures label { labels.new.items ≡ labels.old.items ++ label ∷ [] }
    ensures spare { labels.old.spare ≤ labels.new.spare + 1 }
{
    // The check asks that each type inside a label is named where a label is moved.
    let _inside: Option<Plain> = None;
    match labels.push(label) {
        Ok(()) => {}
        Err(_) => unreachable!(),
    }
}

// The label of a cell that is read.
pub(crate) fn note_load(labels: &mut Labels, spot: &Where, value: &Value)
    requires { 0 < labels.old.spare }
    ensures label { labels.new.items ≡ labels.old.items ++ loads (spot_of spot.now) value.now }
    ensures spare { labels.old.spare ≤ labels.new.spare + 1 }
{
    if let Where::Cell(object) = spot {
        if let Value::Own(plain) = value {
            note(labels, Label::Load(*object, *plain));
        }
    }
}

// The label of a cell that is written.
fn note_store(labels: &mut Labels, spot: &Where, value: &Value)
    requires { 0 < labels.old.spare }
    ensures label { labels.new.items ≡ labels.old.items ++ stores (spot_of spot.now) value.now }
    ensures spare { labels.old.spare ≤ labels.new.spare + 1 }
{
    if let Where::Cell(object) = spot {
        if let Value::Own(plain) = value {
            note(labels, Label::Store(*object, *plain));
        }
    }
}

// The label of a value that is dropped.
fn note_drop(labels: &mut Labels, value: &Value)
    requires { 0 < labels.old.spare }
    ensures label { labels.new.items ≡ labels.old.items ++ drops value.now }
    ensures spare { labels.old.spare ≤ labels.new.spare + 1 }
{
    if let Value::Own(Plain::Box(object)) = value {
        note(labels, Label::Drop(*object));
    }
}

// The value that stands there.
pub(crate) fn value_there(
    thread: ThreadNo,
    slots: &[Value],
    heap: &Heap,
    spot: &Where,
) -> Option<Value>
    ensures { result ≡ value_at (state thread slots.now heap.now.heap) (spot_of spot.now) }
{
    match spot {
        Where::Slot(slot) => {
            let at = *slot as usize;
            if at < slots.len() {
                Some(slots[at])
            } else {
                None
            }
        }
        Where::Cell(object) => match heap.get(object) {
            Some(plain) => Some(Value::Own(plain)),
            None => None,
        },
    }
}

// Puts another value where one stands.
fn put(thread: ThreadNo, slots: &mut Vec<Value>, heap: &mut Heap, spot: &Where, value: Value)
    requires stands { IsSome (value_at (state thread slots.old.items heap.old.heap) (spot_of spot.now)) }
    ensures { state thread slots.new.items heap.new.heap ≡ with_value (state thread slots.old.items heap.old.heap) (spot_of spot.now) value }
{
    match spot {
        Where::Slot(slot) => {
            let at = *slot as usize;
            slots[at] = value;
        }
        Where::Cell(object) => heap.put(object, plain_of(value)),
    }
}

// What a cell can hold of the value.
fn plain_of(value: Value) -> Option<Plain>
    ensures { result ≡ cell_of value }
{
    match value {
        Value::Own(plain) => Some(plain),
        Value::ToSlot(_) => None,
        Value::ToObject(_) => None,
        Value::Held(_) => None,
    }
}

/// Drops a value: an owned one with all that it owns. Gives what goes last with it.
pub fn drop_value(heap: &mut Heap, value: Value) -> Released
    ensures heap { heap.new.heap ≡ without heap.old.heap value }
    ensures released { result ≡ released_of (end_of heap.old.heap value) }
{
    match value {
        Value::Own(plain) => heap.drop_plain(plain),
        Value::ToSlot(_) => Released::Nothing,
        Value::ToObject(_) => Released::Nothing,
        Value::Held(_) => Released::Nothing,
    }
}

// Where a star more leads from there, with the label of the pointer that is read.
fn lead(labels: &mut Labels, spot: &Where, value: &Value) -> Option<Where>
    requires { 0 < labels.old.spare }
    ensures leads { IsReached (led (record { spot = spot_of spot.now; passed = labels.old.items }) (Some value.now)) labels.new.items result }
    ensures spare { labels.old.spare ≤ labels.new.spare + 1 }
{
    match value {
        Value::ToSlot(slot) => Some(Where::Slot(*slot)),
        Value::ToObject(object) => Some(Where::Cell(*object)),
        Value::Held(_) => None,
        Value::Own(Plain::Box(object)) => {
            note_load(labels, spot, value);
            Some(Where::Cell(*object))
        }
        Value::Own(Plain::Nothing) => None,
        Value::Own(Plain::Unit) => None,
        Value::Own(Plain::Int(_)) => None,
        Value::Own(Plain::Mutex(_)) => None,
        Value::Own(Plain::Task(_)) => None,
    }
}

// Follows a place star by star.
pub(crate) fn find(
    thread: ThreadNo,
    slots: &[Value],
    heap: &Heap,
    place: Lval,
    labels: &mut Labels,
) -> Option<Where>
    requires labels { labels.old.items ≡ [] }
    requires room { place.depth ≤ labels.old.spare }
    ensures leads { IsReached (locate (state thread slots.now heap.now.heap) place) labels.new.items result }
    ensures spare { labels.old.spare ≤ labels.new.spare + place.depth }
{
    let mut spot = Where::Slot(place.slot);
    'stars: for star in 0..place.depth {
        let Some(value) = value_there(thread, slots, heap, &spot) else {
            return None;
        };
        match lead(labels, &spot, &value) {
            Some(next) => spot = next,
            None => return None,
        }
    }
    Some(spot)
}

/// Reads a place: copies the value, or takes it out.
pub fn read(
    thread: ThreadNo,
    slots: &mut Vec<Value>,
    heap: &mut Heap,
    labels: &mut Labels,
    place: Lval,
    take: bool,
) -> Value
    requires goes { IsSome (act (do_read place take) (state thread slots.old.items heap.old.heap)) }
    requires labels { labels.old.items ≡ [] }
    requires room { place.depth + 2 ≤ labels.old.spare }
    ensures { act (do_read place take) (state thread slots.old.items heap.old.heap) ≡ did result thread slots.new.items heap.new.heap labels.new.items }
{
    let Some(spot) = find(thread, slots, heap, place, labels) else {
        unreachable!()
    };
    let Some(value) = value_there(thread, slots, heap, &spot) else {
        unreachable!()
    };
    note_load(labels, &spot, &value);
    if take {
        put(thread, slots, heap, &spot, Value::Own(Plain::Nothing));
        note_store(labels, &spot, &Value::Own(Plain::Nothing));
    }
    value
}

/// Makes a reference to what stands at a place.
pub fn borrow(
    thread: ThreadNo,
    slots: &[Value],
    heap: &Heap,
    labels: &mut Labels,
    place: Lval,
) -> Value
    requires goes { IsSome (act (do_borrow place false) (state thread slots.now heap.now.heap)) }
    requires labels { labels.old.items ≡ [] }
    requires room { place.depth ≤ labels.old.spare }
    ensures { act (do_borrow place false) (state thread slots.now heap.now.heap) ≡ did result thread slots.now heap.now.heap labels.new.items }
{
    let Some(spot) = find(thread, slots, heap, place, labels) else {
        unreachable!()
    };
    match spot {
        Where::Slot(slot) => Value::ToSlot(slot),
        Where::Cell(object) => Value::ToObject(object),
    }
}

/// Writes a value to a place, and drops the old one. Gives what goes last with it.
pub fn assign(
    thread: ThreadNo,
    slots: &mut Vec<Value>,
    heap: &mut Heap,
    labels: &mut Labels,
    place: Lval,
    value: Value,
) -> Released
    requires goes { IsSome (act (do_assign place value) (state thread slots.old.items heap.old.heap)) }
    requires labels { labels.old.items ≡ [] }
    requires room { place.depth + 2 ≤ labels.old.spare }
    ensures act { act (do_assign place value) (state thread slots.old.items heap.old.heap) ≡ did unit thread slots.new.items heap.new.heap labels.new.items }
    ensures released { result ≡ releases (do_assign place value) (state thread slots.old.items heap.old.heap) }
{
    let Some(spot) = find(thread, slots, heap, place, labels) else {
        unreachable!()
    };
    let Some(old) = value_there(thread, slots, heap, &spot) else {
        unreachable!()
    };
    note_drop(labels, &old);
    note_store(labels, &spot, &value);
    put(thread, slots, heap, &spot, value);
    drop_value(heap, old)
}

/// Makes an object with a value, and gives its box.
pub fn make_box(
    thread: ThreadNo,
    slots: &[Value],
    heap: &mut Heap,
    labels: &mut Labels,
    value: Value,
) -> Value
    requires goes { IsSome (act (do_box value) (state thread slots.now heap.old.heap)) }
    requires labels { labels.old.items ≡ [] }
    requires room { 0 < labels.old.spare }
    requires heap { heap.old.ready ≡ Some thread }
    ensures { act (do_box value) (state thread slots.now heap.old.heap) ≡ did result thread slots.now heap.new.heap labels.new.items }
{
    let Value::Own(plain) = value else {
        unreachable!()
    };
    let content = plain;
    let object = heap.make(thread, content);
    let name = object;
    note(labels, Label::Make(name, plain));
    Value::Own(Plain::Box(object))
}

/// The sum, the difference or the product of two numbers; each wraps at 64 bits.
pub fn arith(
    thread: ThreadNo,
    slots: &[Value],
    heap: &Heap,
    op: Op,
    left: Value,
    right: Value,
) -> Value
    requires { IsSome (act (do_arith op left right) (state thread slots.now heap.now.heap)) }
    ensures { act (do_arith op left right) (state thread slots.now heap.now.heap) ≡ did result thread slots.now heap.now.heap [] }
{
    let Value::Own(Plain::Int(a)) = left else {
        unreachable!()
    };
    let Value::Own(Plain::Int(b)) = right else {
        unreachable!()
    };
    Value::Own(Plain::Int(wrapped(op, a, b)))
}

// What the operator makes of two numbers.
fn wrapped(op: Op, left: i64, right: i64) -> i64
    ensures { result ≡ result_of op left right }
{
    match op {
        Op::Add => left.wrapping_add(right),
        Op::Sub => left.wrapping_sub(right),
        Op::Mul => left.wrapping_mul(right),
    }
}

/// Prints a number.
pub fn print(
    thread: ThreadNo,
    slots: &[Value],
    heap: &Heap,
    output: &mut Vec<i64>,
    labels: &mut Labels,
    value: Value,
)
    requires goes { IsSome (act (do_print value) (state thread slots.now heap.now.heap)) }
    requires labels { labels.old.items ≡ [] }
    requires room { 0 < labels.old.spare }
    requires output { vec_len output.old < vec_capacity output.old }
    ensures act { act (do_print value) (state thread slots.now heap.now.heap) ≡ did unit thread slots.now heap.now.heap labels.new.items }
    ensures output { output.new.items ≡ output.old.items ++ prints labels.new.items }
{
    let Value::Own(Plain::Int(number)) = value else {
        unreachable!()
    };
    output.push_reserved(number);
    note(labels, Label::Print(number));
}

/// Drops the newest slot. Gives what goes last with it.
pub fn drop_slot(
    thread: ThreadNo,
    slots: &mut Vec<Value>,
    heap: &mut Heap,
    labels: &mut Labels,
) -> Released
    requires goes { IsSome (act do_drop (state thread slots.old.items heap.old.heap)) }
    requires labels { labels.old.items ≡ [] }
    requires room { 0 < labels.old.spare }
    ensures act { act do_drop (state thread slots.old.items heap.old.heap) ≡ did unit thread slots.new.items heap.new.heap labels.new.items }
    ensures released { result ≡ releases do_drop (state thread slots.old.items heap.old.heap) }
{
    let Some(value) = slots.pop() else {
        unreachable!()
    };
    note_drop(labels, &value);
    drop_value(heap, value)
}

/// Drops the value of a term before a `;`. Gives what goes last with it.
pub fn discard(
    thread: ThreadNo,
    slots: &[Value],
    heap: &mut Heap,
    labels: &mut Labels,
    value: Value,
) -> Released
    requires labels { labels.old.items ≡ [] }
    requires room { 0 < labels.old.spare }
    ensures act { act (do_discard value) (state thread slots.now heap.old.heap) ≡ did unit thread slots.now heap.new.heap labels.new.items }
    ensures released { result ≡ releases (do_discard value) (state thread slots.now heap.old.heap) }
{
    note_drop(labels, &value);
    drop_value(heap, value)
}

/// Drops the result of the main thread, which is over. Gives what goes last with it.
pub fn finish(
    thread: ThreadNo,
    slots: &[Value],
    heap: &mut Heap,
    labels: &mut Labels,
    value: Value,
) -> Released
    requires labels { labels.old.items ≡ [] }
    requires room { 2 ≤ labels.old.spare }
    ensures act { act (do_end value) (state thread slots.now heap.old.heap) ≡ did unit thread slots.now heap.new.heap labels.new.items }
    ensures released { result ≡ releases (do_end value) (state thread slots.now heap.old.heap) }
{
    note_drop(labels, &value);
    note(labels, Label::End(thread));
    drop_value(heap, value)
}

/// The end of a thread whose result is kept.
pub fn keep_result(
    thread: ThreadNo,
    slots: &[Value],
    heap: &Heap,
    labels: &mut Labels,
    value: Value,
) -> Value
    requires labels { labels.old.items ≡ [] }
    requires room { 0 < labels.old.spare }
    ensures { act (do_finish value) (state thread slots.now heap.now.heap) ≡ did result thread slots.now heap.now.heap labels.new.items }
{
    note(labels, Label::End(thread));
    value
}

/// Drops the result of a thread that was let go, which is over. Gives what goes last with it.
pub fn drop_result(
    thread: ThreadNo,
    slots: &[Value],
    heap: &mut Heap,
    labels: &mut Labels,
    value: Value,
) -> Released
    requires labels { labels.old.items ≡ [] }
    requires room { 0 < labels.old.spare }
    ensures act { act (do_leave value) (state thread slots.now heap.old.heap) ≡ did unit thread slots.now heap.new.heap labels.new.items }
    ensures released { result ≡ releases (do_leave value) (state thread slots.now heap.old.heap) }
{
    note(labels, Label::End(thread));
    drop_value(heap, value)
}
