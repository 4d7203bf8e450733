//! A thread made, and packed.

use crate::answers::first_wrong;
use fr_base::ThreadNo;
use std::test::Fail;
use thread_state::{BoxedThread, Parcel, Phase, Thread, Value};

// The number of the first wrong part of a new thread with two slots.
fn wrong_part(thread: &Thread) -> Option<usize> {
    let lengths = (thread.slots.len(), thread.temps.len(), thread.walk.len());
    let right = [
        thread.phase == Phase::Ready,
        thread.gift.is_none(),
        !thread.moved_since_step,
        (thread.pc, thread.passed, thread.made, thread.home) == (9, 0, 0, 2),
        lengths == (2, 0, 0),
        thread.slots.get(1) == Some(&Value::MutSlot(0)),
    ];
    first_wrong(&right)
}

#[test]
fn begins_ready_at_home(rt: HostRuntime) -> Result<(), Fail> {
    let slots = vec![in rt.alloc(); Value::Gone, Value::MutSlot(0)]?;
    let mut thread = Thread::new(rt.alloc(), ThreadNo::new(2, 5), 9, slots);
    thread.reserve(3)?;
    assert_eq!(rt; wrong_part(&thread), None);
    Ok(())
}

#[test]
fn comes_back_from_a_parcel(rt: HostRuntime) -> Result<(), Fail> {
    let thread = Thread::new(rt.alloc(), ThreadNo::new(2, 5), 9, Vec::new(rt.alloc()));
    let boxed = BoxedThread::new(rt.alloc(), thread)?;
    let back = Parcel::new(boxed).into_thread();
    assert_eq!(rt; (back.number(), back.get().pc), (ThreadNo::new(2, 5), 9));
    Ok(())
}
