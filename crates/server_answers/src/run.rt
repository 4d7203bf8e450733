//! A source, from its bytes to the text of its run on servers.

ghost use Rattle.std.specs.Prelude.{◌≡◌, ◌≤◌, ℕ, List, Some, IfOk, IfSome, length, string_bytes};
ghost use Rattle.source_front.specs.Below.fr_syntax.Meanings.{term_of};
ghost use Rattle.gen_load.specs.Programs.{program_text};
ghost use Rattle.law_length_programs.specs.Below.law_runs_right.Below.coherent_memory.Naming.{options_out};
ghost use Rattle.source_front.specs.Typed.{IsTyped, limit};
ghost use Rattle.server_answers.specs.Runs.{IsRunOf, IsRight};
ghost use Rattle.server_answers.specs.Answers.{Answers, IsReply, IsReportOf, IsSummaryOf, Refuses, Tells, status_of};

use crate::answer::Answer;
use borrow_check::Checked;
use drust_io::Gate;
use drust_run::{Ran, run_rounds};
use fr_base::{Ending, NoMemory, Options};
use gen_load::generate;
use law_length_programs::{
    programs_have_blocks, runs_in_rounds_are_right, runs_in_rounds_come_to_an_end,
};
use law_plain_generated::programs_are_sources;
use source_front::{Refused, checked_source};
use std::alloc::Global;
use std::sync::Arc;
use std::thread::Threads;
use tracer::{report_text, summary_text, trace_text};

// The status of a run that ended so.
fn status_of(ending: Ending) -> u8
    ensures { result ≡ status_of ending }
{
    match ending {
        Ending::Finished => 0,
        Ending::Deadlocked => 1,
        Ending::Unfinished => 2,
    }
}

// How a run is told.
#[derive(Clone, Copy)]
enum Telling {
    // by its report, and its trace where that is asked for
    Report { traced: bool },
    Summary,
}

// The report of a run, and behind it its trace where that is asked for; or its summary.
fn text_of(alloc: Global, ran: &Ran, telling: Telling) -> Result<String, NoMemory>
    ensures { IfOk result (λ text. Tells telling ran.now (string_bytes text)) }
{
    let waits = ran.cluster.waits(alloc)?;
    match telling {
        Telling::Summary => summary_text(alloc, &ran.journal, ran.ending, &waits),
        Telling::Report { traced: false } => report_text(alloc, &ran.journal, ran.ending, &waits),
        Telling::Report { traced: true } => {
            let mut text = report_text(alloc, &ran.journal, ran.ending, &waits)?;
            text.push_str(trace_text(alloc, &ran.journal)?.as_str())?;
            Ok(text)
        }
    }
}

// A run with its status and its text. (It alone drops a run, where there is no memory for the text: each way out of a function that owns one
// drops all that it keeps.)
fn told(alloc: Global, ran: Ran, telling: Telling) -> Result<Answer, NoMemory>
    ensures ran { IfOk result (λ a. a.ran ≡ Some ran) }
    ensures status { IfOk result (λ a. a.status ≡ status_of ran.ending) }
    ensures text { IfOk result (λ a. Tells telling ran (string_bytes a.text)) }
{
    let text = text_of(alloc, &ran, telling)?;
    Ok(Answer {
        status: status_of(ran.ending),
        ran: Some(ran),
        text,
    })
}

// The answer that a source has no run.
fn refused_answer(alloc: Global, refused: Refused) -> Result<Answer, NoMemory>
    ensures { IfOk result (λ a. Refuses refused a.ran a.status (string_bytes a.text)) }
{
    let text = refused.text(alloc)?;
    Ok(Answer {
        ran: None,
        status: refused.status(),
        text,
    })
}

// The run of a checked program. It is right, as each run of events from its start is.
fn right_run<G: Gate + Sync, R: Threads + Sync>(
    rt: &R,
    alloc: Global,
    checked: Checked,
    options: &Options,
    gate: &G,
) -> Result<Ran, NoMemory>
    requires within { options_out options.now ≡ 0 }
    ensures run { IfOk result (IsRunOf (term_of checked.arena) options.now) }
    ensures right { (bytes : List ℕ) → IsTyped bytes (term_of checked.arena) → IfOk result (IsRight bytes options.now) }
{
    runs_in_rounds_are_right();
    runs_in_rounds_come_to_an_end();
    programs_have_blocks();
    let checked = Arc::new(alloc, checked)?;
    run_rounds(rt, alloc, &checked, options, gate)
}

// The answer to a source that is to be run, told so: its program's run in rounds under the options, or why it has none.
fn answer_to<G: Gate + Sync, R: Threads + Sync>(
    rt: &R,
    alloc: Global,
    bytes: &[u8],
    options: &Options,
    telling: Telling,
    gate: &G,
) -> Result<Answer, NoMemory>
    requires size { length bytes.now ≤ limit }
    requires within { options_out options.now ≡ 0 }
    ensures answers { IfOk result (λ a. Answers (Tells telling) bytes.now options.now a.ran a.status (string_bytes a.text)) }
    ensures right { IfOk result (λ a. IfSome a.ran (IsRight bytes.now options.now)) }
    ensures status { IfOk result (λ a. IsReply a.status) }
{
    let checked = match checked_source(alloc, bytes) {
        Ok(checked) => checked,
        Err(refused) => return refused_answer(alloc, refused),
    };
    let ran = right_run(rt, alloc, checked, options, gate)?;
    told(alloc, ran, telling)
}

/// The answer to a source that is to be run: the report of its program's run in rounds under the options, with its trace where the options
/// ask for it, or why it has none. `NoMemory` alone is refused. It takes time in the input, in the events of the run and in the text.
pub fn run_answer<G: Gate + Sync, R: Threads + Sync>(
    rt: &R,
    alloc: Global,
    bytes: &[u8],
    options: &Options,
    gate: &G,
) -> Result<Answer, NoMemory>
    requires size { length bytes.now ≤ limit }
    requires within { options_out options.now ≡ 0 }
    ensures answers { IfOk result (λ a. Answers (IsReportOf options.now.trace) bytes.now options.now a.ran a.status (string_bytes a.text)) }
    ensures right { IfOk result (λ a. IfSome a.ran (IsRight bytes.now options.now)) }
    ensures status { IfOk result (λ a. IsReply a.status) }
{
    let traced = options.trace;
    answer_to(rt, alloc, bytes, options, Telling::Report { traced }, gate)
}

/// The answer where a generated program, of a size from 1 to 4,000, is to be run: the summary of its run in rounds under the options, or why
/// its text has none. `NoMemory` alone is refused. It takes time in the size, in the events of the run and in the text.
pub fn load_answer<G: Gate + Sync, R: Threads + Sync>(
    rt: &R,
    alloc: Global,
    number: u64,
    size: u32,
    options: &Options,
    gate: &G,
) -> Result<Answer, NoMemory>
    requires least { 1 ≤ size }
    requires most { size ≤ 4000 }
    requires within { options_out options.now ≡ 0 }
    ensures answers { IfOk result (λ a. Answers IsSummaryOf (program_text number size) options.now a.ran a.status (string_bytes a.text)) }
    ensures right { IfOk result (λ a. IfSome a.ran (IsRight (program_text number size) options.now)) }
    ensures status { IfOk result (λ a. IsReply a.status) }
{
    programs_are_sources();
    let source = generate(alloc, number, size)?;
    answer_to(
        rt,
        alloc,
        source.as_bytes(),
        options,
        Telling::Summary,
        gate,
    )
}
