//! The top call.

ghost use Rattle.std.specs.Prelude.{◌≡◌, ◌≤◌, ℕ, List, Option, Some, None, true, false, ◌⊎◌, map, length, string_bytes, IfOk, IfSome};
ghost use Rattle.coherent_memory.specs.Naming.{options_out};
ghost use Rattle.source_front.specs.Typed.{limit};
ghost use Rattle.drust_io.specs.Flow.{NothingLeft, Rose};
ghost use Rattle.drust_cli.specs.declared.asked.Asked.{Asked as AskedThere};
ghost use Rattle.drust_cli.specs.Asked.{asked};
ghost use Rattle.server_answers.specs.Below.drust_run.declared.ran.Ran.{Ran as RanThere};
ghost use Rattle.drust_top.specs.Headline.{Answers, Answered, Broken, IsAnswer, IsCutShort, IsOfInput, IsOfRun, IsRightFor, IsRightOf, IsSilent, IsStatus, Makes, NeverUnfinished, RepliesTo, reads};
ghost use Rattle.drust_top.specs.Inputs.{IsInput};

use crate::outcome::Outcome;
use drust_cli::{Asked, Command, WordsError, read_words};
use drust_io::{Gate, ReadError, Sink, Source, read_all, write_all};
use fr_base::NoMemory;
use gen_load::generate;
use law_plain_generated::programs_are_sources;
use replay_answers::replay_answer;
use server_answers::{Answer, Ran, load_answer, run_answer};
use std::alloc::Global;
use std::sync::Wait;
use std::thread::Threads;

const LIMIT: usize = 1_048_576;

// Writes an answer whole, or its first bytes where the sink fails. No memory.
fn reply<K: Sink>(sink: &mut K, ran: Option<Ran>, status: u8, text: &[u8]) -> Outcome
    requires { IsAnswer status }
    ensures status { (result.status ≡ status) ⊎ (result.status ≡ 7) }
    ensures ran { result.ran ≡ ran }
    ensures answered { (words : List (List ℕ)) (left : Option (List ℕ)) → Answers words left ran status text.now → IsAnswer result.status → Answered words left result.ran result.status (K.written sink.old) (K.written sink.new) }
    ensures broken { (words : List (List ℕ)) (left : Option (List ℕ)) → Answers words left ran status text.now → result.status ≡ 7 → Broken words left result.ran (K.written sink.old) (K.written sink.new) }
    ensures fault { result.status ≡ 7 → Rose (K.fault_count sink.old) (K.fault_count sink.new) }
{
    match write_all(sink, text) {
        Ok(()) => Outcome { status, ran },
        Err(_) => Outcome { status: 7, ran },
    }
}

// What is answered to an input.
fn answer_to<G: Gate + Sync, R: Threads + Sync>(
    rt: &R,
    alloc: Global,
    request: &Asked,
    bytes: &[u8],
    gate: &G,
) -> Result<Answer, NoMemory>
    requires size { length bytes.now ≤ limit }
    requires within { options_out request.now.options ≡ 0 }
    requires reads { reads request.now.command ≡ true }
    ensures answers { IfOk result (λ a. RepliesTo request.now.command request.now.options bytes.now a.ran a.status (string_bytes a.text)) }
    ensures right { IfOk result (λ a. IfSome a.ran (IsRightOf request.now.command (Some bytes.now) request.now.number request.now.size request.now.options)) }
    ensures status { IfOk result (λ a. IsAnswer a.status) }
{
    match request.command {
        Command::Run => run_answer(rt, alloc, bytes, &request.options, gate),
        Command::Replay => {
            let (status, text) = replay_answer(alloc, bytes)?;
            Ok(Answer {
                ran: None,
                status,
                text,
            })
        }
        Command::Gen | Command::Load => unreachable!(),
    }
}

// The answer to an input that was read.
fn answer<K: Sink, G: Gate + Sync, R: Threads + Sync>(
    rt: &R,
    alloc: Global,
    request: &Asked,
    bytes: &[u8],
    sink: &mut K,
    gate: &G,
) -> Outcome
    requires size { length bytes.now ≤ limit }
    requires within { options_out request.now.options ≡ 0 }
    requires reads { reads request.now.command ≡ true }
    ensures status { IsStatus result.status }
    ensures read { (result.status ≡ 6 → ⊥) }
    ensures answered { (words : List (List ℕ)) (left : Option (List ℕ)) → asked words ≡ Some request.now → IsInput bytes.now left → IsAnswer result.status → Answered words left result.ran result.status (K.written sink.old) (K.written sink.new) }
    ensures broken { (words : List (List ℕ)) (left : Option (List ℕ)) → asked words ≡ Some request.now → IsInput bytes.now left → result.status ≡ 7 → Broken words left result.ran (K.written sink.old) (K.written sink.new) }
    ensures right { (words : List (List ℕ)) (left : Option (List ℕ)) → asked words ≡ Some request.now → IsInput bytes.now left → IfSome result.ran (IsRightFor words left) }
    ensures fault { result.status ≡ 7 → Rose (K.fault_count sink.old) (K.fault_count sink.new) }
    ensures nothing { result.status ≡ 8 → (K.written sink.new ≡ K.written sink.old) × (result.ran ≡ None) }
{
    match answer_to(rt, alloc, request, bytes, gate) {
        Ok(Answer { ran, status, text }) => reply(sink, ran, status, text.as_bytes()),
        Err(NoMemory) => Outcome {
            status: 8,
            ran: None,
        },
    }
}

// What is done with an input, which is read whole.
fn input<S: Source, K: Sink, G: Gate + Sync, R: Threads + Sync>(
    rt: &R,
    alloc: Global,
    request: &Asked,
    source: &mut S,
    sink: &mut K,
    gate: &G,
) -> Outcome
    requires within { options_out request.now.options ≡ 0 }
    requires reads { reads request.now.command ≡ true }
    ensures status { IsStatus result.status }
    ensures answered { (words : List (List ℕ)) → asked words ≡ Some request.now → IsAnswer result.status → Answered words (S.left source.old) result.ran result.status (K.written sink.old) (K.written sink.new) }
    ensures broken { (words : List (List ℕ)) → asked words ≡ Some request.now → result.status ≡ 7 → Broken words (S.left source.old) result.ran (K.written sink.old) (K.written sink.new) }
    ensures right { (words : List (List ℕ)) → asked words ≡ Some request.now → IfSome result.ran (IsRightFor words (S.left source.old)) }
    ensures sink_fault { result.status ≡ 7 → Rose (K.fault_count sink.old) (K.fault_count sink.new) }
    ensures source_fault { result.status ≡ 6 → Rose (S.fault_count source.old) (S.fault_count source.new) }
    ensures nothing { IsSilent result.status → (K.written sink.new ≡ K.written sink.old) × (result.ran ≡ None) }
    ensures nothing_left { IsOfInput result.status → NothingLeft (S.left source.new) }
{
    match read_all(alloc, source, LIMIT) {
        Ok(bytes) => answer(rt, alloc, request, &bytes, sink, gate),
        Err(ReadError::TooLong) => reply(sink, None, 9, b"refused size\n"),
        Err(ReadError::ReadFault) => Outcome {
            status: 6,
            ran: None,
        },
        Err(ReadError::NoMemory) => Outcome {
            status: 8,
            ran: None,
        },
    }
}

// What is answered without an input.
fn made<G: Gate + Sync, R: Threads + Sync>(
    rt: &R,
    alloc: Global,
    request: &Asked,
    gate: &G,
) -> Result<Answer, NoMemory>
    requires within { options_out request.now.options ≡ 0 }
    requires least { 1 ≤ request.now.size }
    requires most { request.now.size ≤ 4000 }
    requires reads { reads request.now.command ≡ false }
    ensures answers { IfOk result (λ a. Makes request.now.command request.now.options request.now.number request.now.size a.ran a.status (string_bytes a.text)) }
    ensures right { (left : Option (List ℕ)) → IfOk result (λ a. IfSome a.ran (IsRightOf request.now.command left request.now.number request.now.size request.now.options)) }
    ensures status { IfOk result (λ a. IsAnswer a.status) }
{
    match request.command {
        Command::Gen => {
            let text = generate(alloc, request.number, request.size)?;
            Ok(Answer {
                ran: None,
                status: 0,
                text,
            })
        }
        Command::Load => load_answer(
            rt,
            alloc,
            request.number,
            request.size,
            &request.options,
            gate,
        ),
        Command::Run | Command::Replay => unreachable!(),
    }
}

// A generated program is written, or run.
fn generated<K: Sink, G: Gate + Sync, R: Threads + Sync>(
    rt: &R,
    alloc: Global,
    request: &Asked,
    sink: &mut K,
    gate: &G,
) -> Outcome
    requires within { options_out request.now.options ≡ 0 }
    requires least { 1 ≤ request.now.size }
    requires most { request.now.size ≤ 4000 }
    requires reads { reads request.now.command ≡ false }
    ensures status { IsStatus result.status }
    ensures read { result.status ≡ 6 → ⊥ }
    ensures answered { (words : List (List ℕ)) (left : Option (List ℕ)) → asked words ≡ Some request.now → IsAnswer result.status → Answered words left result.ran result.status (K.written sink.old) (K.written sink.new) }
    ensures broken { (words : List (List ℕ)) (left : Option (List ℕ)) → asked words ≡ Some request.now → result.status ≡ 7 → Broken words left result.ran (K.written sink.old) (K.written sink.new) }
    ensures right { (words : List (List ℕ)) (left : Option (List ℕ)) → asked words ≡ Some request.now → IfSome result.ran (IsRightFor words left) }
    ensures fault { result.status ≡ 7 → Rose (K.fault_count sink.old) (K.fault_count sink.new) }
    ensures nothing { result.status ≡ 8 → (K.written sink.new ≡ K.written sink.old) × (result.ran ≡ None) }
{
    match made(rt, alloc, request, gate) {
        Ok(Answer { ran, status, text }) => reply(sink, ran, status, text.as_bytes()),
        Err(NoMemory) => Outcome {
            status: 8,
            ran: None,
        },
    }
}

// Whether a command has an input.
fn reads(command: Command) -> bool
    ensures { result ≡ reads command }
{
    match command {
        Command::Run | Command::Replay => true,
        Command::Gen | Command::Load => false,
    }
}

/// THE TOP CALL: does what the words ask for, with the source's input, and writes its text to the sink.
///
/// `run` runs the program of a source on servers, in rounds under the options, and writes the report; `replay` runs it on one heap under the
/// order behind it; `gen` writes a generated program and `load` runs one and writes the summary, and both read nothing. An input is read
/// whole first (at most 1,048,576 bytes), and the whole text is made before the first write. It takes time in the input, in the events or
/// steps of the run and in the text.
///
/// The statuses: 0, the run has finished or the program was generated; 1, it is deadlocked; 2, it would go on after its last turn or the
/// last step of its order; 3, the input is no source, with the place of the first byte, name, number or token that is refused; 4, its
/// program has a fault of types; 5, the words are refused; 6, the source failed; 7, the sink failed; 8, there was no memory; 9, the input
/// is too long; 10, the order is refused, with the place of the first line that isn't in the format or whose steps aren't all plain steps.
/// `Answers` has the causes of 0 to 5, 9 and 10, each with its text and with the run that is handed back: an input that a cause fits gets
/// the status of that cause, or 6, 7 or 8; that of a typed program that is to be run gets 0, 1 or 2, or one of these, and never 2 with `100 * (2 * n + 1)` turns, n the
/// nodes of its tree (`in_time`). At 6 and 8 nothing is written and no run
/// is handed back, at 7 the first bytes of the text that would have been. The run that is handed back is right (`IsRight`): it is the
/// program's own run on one heap under the order that is written.
pub fn drust<S: Source, K: Sink, G: Gate + Sync, R: Threads + Wait + Sync>(
    rt: &R,
    alloc: Global,
    words: &Vec<String>,
    source: &mut S,
    sink: &mut K,
    gate: &G,
) -> Outcome
    ensures status { IsStatus result.status }
    ensures answered { IsAnswer result.status → Answered (map string_bytes words.now.items) (S.left source.old) result.ran result.status (K.written sink.old) (K.written sink.new) }
    ensures from_cause { (bytes : List ℕ) (text : List ℕ) (status : ℕ) (r : Option RanThere) → S.left source.old ≡ Some bytes → Answers (map string_bytes words.now.items) (Some bytes) r status text → (result.status ≡ status) ⊎ IsCutShort result.status }
    ensures in_time { NeverUnfinished (map string_bytes words.now.items) (S.left source.old) result.status }
    ensures loads { (a : AskedThere) → asked (map string_bytes words.now.items) ≡ Some a → a.command ≡ Command.Load → IsOfRun result.status ⊎ IsCutShort result.status }
    ensures broken { result.status ≡ 7 → Broken (map string_bytes words.now.items) (S.left source.old) result.ran (K.written sink.old) (K.written sink.new) }
    ensures right { IfSome result.ran (IsRightFor (map string_bytes words.now.items) (S.left source.old)) }
    ensures sink_fault { result.status ≡ 7 → Rose (K.fault_count sink.old) (K.fault_count sink.new) }
    ensures source_fault { result.status ≡ 6 → Rose (S.fault_count source.old) (S.fault_count source.new) }
    ensures nothing_written { IsSilent result.status → K.written sink.new ≡ K.written sink.old }
    ensures nothing_ran { IsSilent result.status → result.ran ≡ None }
    ensures nothing_left { (a : AskedThere) → asked (map string_bytes words.now.items) ≡ Some a → reads a.command ≡ true → IsOfInput result.status → NothingLeft (S.left source.new) }
    ensures nothing_read { (a : AskedThere) → asked (map string_bytes words.now.items) ≡ Some a → reads a.command ≡ false → S.left source.new ≡ S.left source.old }
    ensures words { asked (map string_bytes words.now.items) ≡ None → ((result.status ≡ 5) ⊎ (result.status ≡ 7) ⊎ (result.status ≡ 8)) × (S.left source.new ≡ S.left source.old) }
{
    programs_are_sources();
    match read_words(alloc, words) {
        Ok(request) => {
            if reads(request.command) {
                input(rt, alloc, &request, source, sink, gate)
            } else {
                generated(rt, alloc, &request, sink, gate)
            }
        }
        Err(WordsError::BadWords) => reply(sink, None, 5, b"refused words\n"),
        Err(WordsError::NoMemory) => Outcome {
            status: 8,
            ran: None,
        },
    }
}
