//! A source with an order behind it, from its bytes to the text of its run under the order.

ghost use Rattle.std.specs.Prelude.{◌≡◌, ◌≤◌, ◌<◌, ◌+◌, ◌^◌, ℕ, List, [], ◌∷◌, length, IfOk, IfErr, OnOk, string_bytes};
ghost use Rattle.journal.specs.OrderFaults.{IsRefusedOrNoMemory};
ghost use Rattle.fr_meaning.specs.PoolView.{whole_of, steps_left_of};
ghost use Rattle.source_front.specs.Typed.{limit};
ghost use Rattle.replay_answers.specs.Answers.{Replayed, IsUnfollowedBy};
ghost use Rattle.replay_answers.specs.Replay.{source_length as source_size, turns, ending_text as text_of_ending, replay_text as text_of_replay, status_of_ending, HasLines, Replays, ReplaysFrom};
ghost use Rattle.replay_answers.specs.Runs.{Follows, IsStop, IsStopped, IsStoppedIn, IsUnordered, AreNoLines};

use crate::report::add_numbers;
use fr_base::{Ending3, NoMemory};
use fr_meaning::{Pool, StepError};
use journal::{Order, OrderError, OrderLine, read_order};
use source_front::{Refused, add_count, checked_source};
use std::alloc::Global;

// How many bytes stand before the first mark.
fn source_length(bytes: &[u8]) -> usize
    ensures within { result ≤ length bytes.now }
    ensures length { result ≡ source_size bytes.now }
{
    bytes.iter().take_while(|byte| **byte != b'%').count()
}

// What a refusal of an order says of the input.
fn refused_order(error: OrderError) -> Refused
    ensures { (from : ℕ) (order : List ℕ) → IsRefusedOrNoMemory from order error → AreNoLines from order result }
{
    match error {
        OrderError::BadOrder { place } => Refused::Order { place },
        OrderError::NoMemory => Refused::NoMemory,
    }
}

// The order behind the source, whose bytes are so many: behind a mark and a newline.
fn order_behind(alloc: Global, bytes: &[u8], source: usize) -> Result<Order, Refused>
    requires within { source ≤ length bytes.now }
    requires source { source ≡ source_size bytes.now }
    ensures ok { IfOk result (λ order. HasLines bytes.now order.items) }
    ensures err { IfErr result (IsUnordered bytes.now) }
{
    if source == bytes.len() {
        return Err(Refused::Order { place: source });
    }
    let Some(byte) = bytes.get(source + 1) else {
        return Err(Refused::Order { place: source + 1 });
    };
    if *byte != b'\n' {
        return Err(Refused::Order { place: source + 1 });
    }
    match read_order(alloc, bytes, source + 2) {
        Ok(order) => Ok(order),
        Err(error) => Err(refused_order(error)),
    }
}

// What a refusal of a step says of the order whose line starts there.
fn stopped(error: StepError, place: usize) -> Refused
    ensures { IsStop error place result }
{
    match error {
        StepError::NoMemory => Refused::NoMemory,
        _ => Refused::Order { place },
    }
}

// The steps of a line, one after another; refused at the line where one is no plain step.
fn follow_line(pool: &mut Pool, line: &OrderLine) -> Result<(), Refused>
    ensures follows { OnOk result (Follows (whole_of pool.old) (turns (line.now ∷ [])) (whole_of pool.new)) }
    ensures left { OnOk result (steps_left_of pool.new + line.now.steps ≡ steps_left_of pool.old) }
    ensures stopped { IfErr result (IsStopped (whole_of pool.old) line.now) }
{
    'steps: for _ in 0..line.steps {
        if let Err(error) = pool.step(line.thread, line.fresh) {
            return Err(stopped(error, line.place));
        }
    }
    Ok(())
}

// The steps of an order, and how many they are.
fn follow(pool: &mut Pool, order: &Order) -> Result<u64, Refused>
    requires few { steps_left_of pool.old < 2 ^ 64 }
    ensures follows { OnOk result (Follows (whole_of pool.old) (turns order.now.items) (whole_of pool.new)) }
    ensures steps { IfOk result (λ steps. steps ≡ length (turns order.now.items)) }
    ensures stopped { IfErr result (IsStoppedIn (whole_of pool.old) order.now.items) }
{
    let mut steps = 0u64;
    'lines: for at in 0..order.len() {
        let Some(line) = order.at(at) else {
            unreachable!()
        };
        follow_line(pool, line)?;
        steps += line.steps;
    }
    Ok(steps)
}

// How a state stands, in a word.
fn ending_text(ending: Ending3) -> &'static str
    ensures { result.now ≡ text_of_ending ending }
{
    match ending {
        Ending3::Finished => "finished",
        Ending3::Deadlocked => "deadlocked",
        Ending3::Going => "unfinished",
    }
}

// The status of a replay that ends so.
fn status_of(ending: Ending3) -> u8
    ensures { result ≡ status_of_ending ending }
{
    match ending {
        Ending3::Finished => 0,
        Ending3::Deadlocked => 1,
        Ending3::Going => 2,
    }
}

// The text of a replay after so many steps.
fn replay_text(
    alloc: Global,
    ending: Ending3,
    steps: u64,
    printed: &[i64],
) -> Result<String, NoMemory>
    ensures { IfOk result (λ text. string_bytes text ≡ text_of_replay ending steps printed.now) }
{
    let mut text = String::from_str(alloc, "ended ")?;
    text.push_str(ending_text(ending))?;
    text.push_str("\nprints ")?;
    add_count(&mut text, printed.len() as u64)?;
    text.push_str("\n")?;
    add_numbers(&mut text, printed)?;
    text.push_str("steps ")?;
    add_count(&mut text, steps)?;
    text.push_str("\n")?;
    Ok(text)
}

// The status and the text of a pool's run under an order. (It has the pool by reference, since each way out of a function that owns one drops all that it keeps.)
fn follow_order(alloc: Global, pool: &mut Pool, order: &Order) -> Result<(u8, String), Refused>
    requires few { steps_left_of pool.old < 2 ^ 64 }
    ensures replays { IfOk result (λ r. ReplaysFrom (whole_of pool.old) order.now.items r.0 (string_bytes r.1)) }
    ensures stopped { IfErr result (IsStoppedIn (whole_of pool.old) order.now.items) }
{
    let steps = follow(pool, order)?;
    let ending = pool.ending();
    let text = replay_text(alloc, ending, steps, pool.output())?;
    Ok((status_of(ending), text))
}

// The status and the text of the run of a source's program under the order behind it.
fn follow_source(alloc: Global, bytes: &[u8]) -> Result<(u8, String), Refused>
    requires { length bytes.now ≤ limit }
    ensures replays { IfOk result (λ r. Replays bytes.now r.0 (string_bytes r.1)) }
    ensures refused { IfErr result (IsUnfollowedBy bytes.now) }
{
    let source = source_length(bytes);
    let checked = checked_source(alloc, &bytes[..source])?;
    let order = order_behind(alloc, bytes, source)?;
    let mut pool = Pool::new(alloc, &checked)?;
    follow_order(alloc, &mut pool, &order)
}

/// The status and the text of a replay, or of the refusal of it. It takes time in the input and in the steps of the order up to
/// the first that is no plain step.
pub fn replay_answer(alloc: Global, bytes: &[u8]) -> Result<(u8, String), NoMemory>
    requires { length bytes.now ≤ limit }
    ensures { IfOk result (λ r. Replayed bytes.now r.0 (string_bytes r.1)) }
{
    match follow_source(alloc, bytes) {
        Ok(reply) => Ok(reply),
        Err(refused) => Ok((refused.status(), refused.text(alloc)?)),
    }
}
