//! A mutex whose shares come and go, and pairs that end out of order.

use crate::answers::first_wrong;
use fr_base::{MutexNo, NoMemory, Plain, ThreadNo};
use fr_shared::{Mutexes, Pairs, Two};
use std::test::Fail;

// Gives a name to a new mutex, where it wasn't given before.
#[tactic(auto, using(fr_shared::proofs::MutexParts::new_none))]
fn give(mutexes: &mut Mutexes, mutex: MutexNo, content: Plain) -> Result<bool, NoMemory> {
    if mutexes.is_given(mutex) {
        return Ok(false);
    }
    mutexes.reserve()?;
    mutexes.add(mutex, content);
    Ok(true)
}

// One share more, where it can be counted.
fn share(mutexes: &mut Mutexes, mutex: MutexNo) -> bool {
    if !mutexes.can_share(mutex) {
        return false;
    }
    mutexes.share(mutex);
    true
}

// The content is given back, and a share dropped that isn't the last one.
fn gives_back(mutexes: &mut Mutexes, mutex: MutexNo, content: Plain) -> bool {
    mutexes.give_back(mutex, content);
    mutexes.drop_share(mutex).is_none()
}

// The number of the first wrong answer, of two mutexes of which nothing is known before.
fn wrong_content(mutexes: &mut Mutexes) -> Result<Option<usize>, NoMemory> {
    let mutex = MutexNo { home: 1, count: 7 };
    let other = MutexNo { home: 2, count: 7 };
    let right = [
        give(mutexes, mutex, Plain::Int(3))?,
        give(mutexes, other, Plain::Unit)?,
        !give(mutexes, mutex, Plain::Unit)?,
        share(mutexes, mutex),
        mutexes.take_content(mutex) == Some(Plain::Int(3)),
        mutexes.take_content(mutex).is_none(),
        gives_back(mutexes, mutex, Plain::Int(4)),
        mutexes.drop_share(mutex) == Some(Plain::Int(4)),
        mutexes.there(mutex).is_none(),
        mutexes.is_given(mutex),
        mutexes.take_content(other) == Some(Plain::Unit),
    ];
    Ok(first_wrong(&right))
}

#[test]
fn content_goes_with_the_last_share(rt: HostRuntime) -> Result<(), Fail> {
    let mut mutexes = Mutexes::new(rt.alloc());
    assert_eq!(rt; wrong_content(&mut mutexes)?, None);
    Ok(())
}

// A parent that waits for no pair waits for these two.
#[tactic(auto, using(fr_shared::proofs::PairParts::none_from))]
fn pair(
    pairs: &mut Pairs,
    parent: ThreadNo,
    first: ThreadNo,
    second: ThreadNo,
) -> Result<bool, NoMemory> {
    if pairs.of(parent).is_some() {
        return Ok(false);
    }
    pairs.reserve()?;
    pairs.add(parent, Two { first, second });
    Ok(true)
}

// Whether the parent waits for these two.
fn waits_for(pairs: &Pairs, parent: ThreadNo, first: ThreadNo, second: ThreadNo) -> bool {
    match pairs.of(parent) {
        Some(two) => two.first == first && two.second == second,
        None => false,
    }
}

// The number of the first wrong answer, where a pair ends before another one that began after it.
fn wrong_pair(pairs: &mut Pairs) -> Result<Option<usize>, NoMemory> {
    let main = ThreadNo::new(0, 0);
    let other = ThreadNo::new(1, 0);
    let first = ThreadNo::new(1, 1);
    let second = ThreadNo::new(1, 2);
    let begun = [
        pair(pairs, main, other, first)?,
        pair(pairs, other, first, second)?,
        !pair(pairs, main, first, second)?,
    ];
    pairs.remove(main);
    let right = [
        first_wrong(&begun).is_none(),
        pairs.of(main).is_none(),
        waits_for(pairs, other, first, second),
        pair(pairs, main, second, first)?,
        waits_for(pairs, main, second, first),
    ];
    Ok(first_wrong(&right))
}

#[test]
fn pairs_end_out_of_order(rt: HostRuntime) -> Result<(), Fail> {
    let mut pairs = Pairs::new(rt.alloc());
    assert_eq!(rt; wrong_pair(&mut pairs)?, None);
    Ok(())
}
