//! How threads stand: what they wait for, why their steps are refused, and how a run ends.

ghost use Rattle.std.specs.Prelude.{◌≡◌, ◌<◌, ◌||◌, ◌&&◌, ℕ, List, length, slice_index_or, is_some, option_map};
ghost use Rattle.fr_plain.specs.Machine.{join_waits, pair_waits};
ghost use Rattle.fr_plain.specs.MachineThreads.{pair_of};
ghost use Rattle.fr_plain.specs.Whole.{Whole, result_at, is_given, is_over as life_is_over, waits_for, all_over as all_are_over, all_wait as all_are_waiting, ending_of, refused_names as names_refused};
ghost use Rattle.fr_forms.specs.declared.forms.Form.{Form};
ghost use Rattle.fr_meaning.specs.declared.thread.Thread.{Thread};
ghost use Rattle.fr_forms.specs.FormTerms.{AreInOrder};
ghost use Rattle.fr_meaning.specs.Next.{next_waits};
ghost use Rattle.fr_shared.specs.Places.{place_of};
ghost use Rattle.fr_meaning.specs.PoolView.{error_of, takes_for, refusal, need_of};
ghost use Rattle.fr_meaning.specs.Running.{plain_of, Stands};
ghost use Rattle.fr_meaning.specs.Threads.{result_in, is_done, numbers_of, thread_of, threads_of};

use crate::error::StepError;
use crate::need::Need;
use crate::next::{Next, need_of_next, next_of, task_named_by};
use crate::running::Running;
use crate::thread::{Stage, Thread};
use fr_acts::lock_wait;
use fr_base::{Ending3, Fresh, ThreadNo, Wait};
use fr_plain::Value;
use fr_shared::{Mutexes, Places, Two};

// The thread has ended.
fn is_over(stage: &Stage) -> bool
    ensures { result ≡ is_done stage.now }
{
    match stage {
        Stage::Alive => false,
        Stage::Owing => false,
        Stage::Loose => false,
        Stage::Over => true,
        Stage::Ended(_) => true,
    }
}

// The thread's result is kept.
fn has_result(stage: &Stage) -> bool
    ensures { result ≡ is_some (result_in stage.now) }
{
    match stage {
        Stage::Alive => false,
        Stage::Owing => false,
        Stage::Loose => false,
        Stage::Over => false,
        Stage::Ended(_) => true,
    }
}

// The thread has ended, and its result is kept.
fn has_ended(running: &Running, thread: ThreadNo) -> bool
    requires numbers { running.now.places.numbers ≡ numbers_of running.now.threads.items }
    ensures { (fs : List Form) → result ≡ is_some (result_at (threads_of fs running.now.threads.items) thread) }
{
    match running.places.at(thread) {
        Some(place) => has_result(&running.threads[place].stage),
        None => false,
    }
}

// Both threads have ended, and their results are kept.
fn have_ended(running: &Running, two: &Two) -> bool
    requires numbers { running.now.places.numbers ≡ numbers_of running.now.threads.items }
    ensures { (fs : List Form) → result ≡ (is_some (result_at (threads_of fs running.now.threads.items) two.now.first) && is_some (result_at (threads_of fs running.now.threads.items) two.now.second)) }
{
    has_ended(running, two.first) && has_ended(running, two.second)
}

// What a join of the thread whose task the value is waits for: its result.
fn join_wait(running: &Running, value: &Value) -> Option<Wait>
    requires numbers { running.now.places.numbers ≡ numbers_of running.now.threads.items }
    ensures { (fs : List Form) → result ≡ join_waits (plain_of fs running.now) value.now }
{
    let Some(joined) = task_named_by(value) else {
        return None;
    };
    if has_ended(running, joined) {
        None
    } else {
        Some(Wait::Join(joined))
    }
}

// What a parent of a pair waits for: the results of both.
fn pair_wait(running: &Running, parent: ThreadNo) -> Option<Wait>
    requires numbers { running.now.places.numbers ≡ numbers_of running.now.threads.items }
    ensures { (fs : List Form) → result ≡ pair_waits (plain_of fs running.now) (pair_of running.now.common.pairs.pairs parent) }
{
    let Some(two) = running.common.pairs.of(parent) else {
        return None;
    };
    if have_ended(running, &two) {
        None
    } else {
        Some(Wait::Par(two.first, two.second))
    }
}

// What a thread with this next step waits for.
fn wait_of(running: &Running, thread: &Thread, next: &Next) -> Option<Wait>
    requires numbers { running.now.places.numbers ≡ numbers_of running.now.threads.items }
    ensures { (fs : List Form) → result ≡ next_waits (plain_of fs running.now) (thread_of fs thread.now) next.now }
{
    match next {
        Next::Join(value) => join_wait(running, value),
        Next::Lock(place, _) => lock_wait(
            thread.number,
            &thread.slots,
            &running.common.heap,
            &running.common.mutexes,
            *place,
        ),
        Next::ParEnd => pair_wait(running, thread.number),
        Next::End(_) => None,
        Next::Start(_) => None,
        Next::Mutex(_) => None,
        Next::Dup(_) => None,
        Next::Unlock(_) => None,
        Next::Par(_) => None,
        Next::Own => None,
    }
}

// The name was given to a thread.
fn is_used(places: &Places, number: &ThreadNo) -> bool
    ensures { result ≡ is_some (place_of places.now.numbers number.now) }
{
    places.at(*number).is_some()
}

// Why a step that takes names of this kind can't take these.
fn refused_names(
    places: &Places,
    mutexes: &Mutexes,
    need: &Need,
    fresh: &Fresh,
) -> Option<StepError>
    ensures { (s : Whole) → ((u : ℕ) → is_given s u ≡ is_some (place_of places.now.numbers u)) → s.mutexes ≡ mutexes.now.mutexes → result ≡ option_map error_of (names_refused s (takes_for need.now) fresh.now) }
{
    let used = match (need, fresh) {
        (Need::Nothing, Fresh::None) => false,
        (Need::Thread, Fresh::Thread(number)) => is_used(places, number),
        (Need::Threads, Fresh::Threads(first, second)) => {
            first == second || is_used(places, first) || is_used(places, second)
        }
        (Need::Mutex, Fresh::Mutex(mutex)) => mutexes.is_given(*mutex),
        _ => return Some(StepError::NameKind),
    };
    if used {
        Some(StepError::NameUsed)
    } else {
        None
    }
}

/// Why the thread can't step with these names, the first cause.
pub fn refused_by(running: &Running, thread: ThreadNo, fresh: &Fresh) -> Option<StepError>
    requires numbers { running.now.places.numbers ≡ numbers_of running.now.threads.items }
    ensures { (fs : List Form) → AreInOrder fs → Stands fs running.now → result ≡ refusal (plain_of fs running.now) thread fresh.now }
{
    let Some(at) = running.places.at(thread) else {
        return Some(StepError::NoThread);
    };
    let standing = &running.threads[at];
    if is_over(&standing.stage) {
        return Some(StepError::Ended);
    }
    let next = next_of(&standing.focus, &standing.frames);
    if let Some(wait) = wait_of(running, standing, &next) {
        return Some(StepError::Waits(wait));
    }
    refused_names(
        &running.places,
        &running.common.mutexes,
        &need_of_next(&next),
        fresh,
    )
}

/// The kind of names that the thread's next step takes.
pub fn need_in(running: &Running, thread: ThreadNo) -> Option<Need>
    requires numbers { running.now.places.numbers ≡ numbers_of running.now.threads.items }
    ensures { (fs : List Form) → AreInOrder fs → Stands fs running.now → result ≡ need_of (plain_of fs running.now) thread }
{
    let Some(at) = running.places.at(thread) else {
        return None;
    };
    let standing = &running.threads[at];
    if is_over(&standing.stage) {
        return None;
    }
    Some(need_of_next(&next_of(&standing.focus, &standing.frames)))
}

// All threads have ended.
fn all_over(threads: &[Thread]) -> bool
    ensures { (fs : List Form) → result ≡ all_are_over (threads_of fs threads.now) }
{
    'each: for at in 0..threads.len() {
        if !is_over(&threads[at].stage) {
            return false;
        }
    }
    true
}

// The thread has ended, or waits.
fn stands_still(running: &Running, thread: &Thread) -> bool
    requires numbers { running.now.places.numbers ≡ numbers_of running.now.threads.items }
    ensures { (fs : List Form) (i : ℕ) → AreInOrder fs → Stands fs running.now → i < length running.now.threads.items → thread.now ≡ slice_index_or running.now.threads.items i thread.now → result ≡ life_is_over (thread_of fs thread.now).life || is_some (waits_for (plain_of fs running.now) (thread_of fs thread.now)) }
{
    if is_over(&thread.stage) {
        return true;
    }
    wait_of(running, thread, &next_of(&thread.focus, &thread.frames)).is_some()
}

// All threads have ended or wait.
fn all_wait(running: &Running) -> bool
    requires numbers { running.now.places.numbers ≡ numbers_of running.now.threads.items }
    ensures { (fs : List Form) → AreInOrder fs → Stands fs running.now → result ≡ all_are_waiting (plain_of fs running.now) (threads_of fs running.now.threads.items) }
{
    'each: for at in 0..running.threads.len() {
        if !stands_still(running, &running.threads[at]) {
            return false;
        }
    }
    true
}

/// How the state stands. Takes time in the number of threads.
pub fn ending_in(running: &Running) -> Ending3
    requires numbers { running.now.places.numbers ≡ numbers_of running.now.threads.items }
    ensures { (fs : List Form) → AreInOrder fs → Stands fs running.now → result ≡ ending_of (plain_of fs running.now) }
{
    if all_over(&running.threads) {
        return Ending3::Finished;
    }
    if all_wait(running) {
        return Ending3::Deadlocked;
    }
    Ending3::Going
}
