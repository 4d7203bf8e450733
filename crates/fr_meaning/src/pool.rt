//! The plain machine: threads over one heap.

ghost use Rattle.std.specs.Prelude.{◌≡◌, ◌<◌, ◌≤◌, ◌+◌, [], length, Option, Some, None, IfOk, IfErr, OnOk, OnErr};
ghost use Rattle.fr_syntax.specs.Meanings.{term_of};
ghost use Rattle.fr_plain.specs.Whole.{start, step, ending_of};
ghost use Rattle.fr_plain.specs.Resolve.{program};
ghost use Rattle.law_plain_threads.specs.steps.TypedTerms.{AreTypedTerms};
ghost use Rattle.fr_meaning.specs.declared.error.StepError.{StepError};
ghost use Rattle.fr_meaning.specs.declared.error.StepError.TheVariants as step_error;
ghost use Rattle.fr_forms.specs.Depths.{depth};
ghost use Rattle.fr_forms.specs.FormTerms.{AreInOrder, root_of};
ghost use Rattle.fr_meaning.specs.PoolView.{whole_of, steps_left_of, refusal, need_of};

use crate::error::StepError;
use crate::frame::FRAMES;
use crate::need::Need;
use crate::running::{Running, go, run_alone};
use crate::standing::{ending_in, need_in, refused_by};
use crate::thread::main_thread;
use borrow_check::Checked;
use fr_base::{Ending3, Fresh, Labels, NoMemory, ThreadNo};
use fr_forms::{Form, forms_of};
use std::alloc::Global;
use std::marker::Model;

/// A program and its plain state: the threads in the order in which they were started, the one heap, the mutexes, the pairs and the
/// output.
/// Contracts see the plain state, and not what room there is. Peak memory per thread: one that goes on has room for 128 frames, 6 KB, and
/// for its slots; one that has ended keeps neither, but its entry in the lists, with its result where somebody has its task: some 250 bytes
/// (measured, with the room that these lists have for more). An object that was dropped keeps nothing, and a mutex that is gone its name alone.
#[derive(Drop)]
pub struct Pool {
    alloc: Global,
    forms: Vec<Form>,
    running: Running,
}

impl Model for Pool {
    ghost use Rattle.fr_meaning.specs.PoolView.{View};

    ghost Value = { View };

    ghost use Rattle.fr_meaning.specs.PoolInside.{pool_view, IsPool};

    ghost view = { pool_view };

    ghost invariant = { IsPool };
}

impl Pool {
    /// The main thread at the start of a checked program's term, alone over an empty heap. Takes time in the program's nodes.
    pub fn new(alloc: Global, checked: &Checked) -> Result<Pool, NoMemory>
        ensures start { IfOk result (λ p. whole_of p ≡ start (program (term_of checked.now.arena))) }
        ensures typed { IfOk result (λ p. AreTypedTerms (whole_of p)) }
    {
        let forms = forms_of(alloc, checked)?;
        Pool::from_forms(alloc, forms)
    }

    // The main thread at the start of the last form's term.
    fn from_forms(alloc: Global, forms: Vec<Form>) -> Result<Pool, NoMemory>
        requires order { AreInOrder forms.items }
        requires root { 0 < length forms.items }
        requires depth { depth (root_of forms.items) ≤ FRAMES }
        requires typed { AreTypedTerms (start (root_of forms.items)) }
        ensures start { IfOk result (λ p. whole_of p ≡ start (root_of forms.items)) }
        ensures typed { IfOk result (λ p. AreTypedTerms (whole_of p)) }
    {
        let mut frames = Vec::new(alloc);
        frames.reserve(FRAMES)?;
        let main = main_thread(&forms, frames, Vec::new(alloc));
        let running = run_alone(alloc, main)?;
        Ok(Pool {
            alloc,
            forms,
            running,
        })
    }

    /// One step of a thread under these new names, with its labels. The refusals, in this order, each with the pool
    /// unchanged: `NoThread` (no such thread was started), `Ended`, `Waits` (it joins a thread that goes on, locks a mutex whose content is out, or waits for
    /// the end of a pair), `NameKind`
    /// (the names aren't of the kind that the step takes), `NameUsed` (the name was given before), and `NoMemory`: the allocator has none,
    /// or the step is a `dup` of a mutex that has 2^64 - 1 shares, as no more can be counted. Takes no
    /// time in the number of threads, but for those that go because their tasks are dropped.
    pub fn step(&mut self, thread: ThreadNo, fresh: Fresh) -> Result<Labels, StepError>
        ensures stepped { IfOk result (λ l. step (whole_of self.old) thread fresh ≡ Some (record { state = whole_of self.new; labels = l.items })) }
        ensures left { OnOk result (steps_left_of self.new + 1 ≡ steps_left_of self.old) }
        ensures refused { (e : StepError) → refusal (whole_of self.old) thread fresh ≡ Some e → result ≡ Err e }
        ensures free { refusal (whole_of self.old) thread fresh ≡ None → IfErr result (λ e. e ≡ step_error.NoMemory) }
        ensures err { OnErr result (self.new ≡ self.old) }
    {
        if let Some(error) = self.refused(thread, &fresh) {
            return Err(error);
        }
        match self.go(thread, fresh) {
            Ok(labels) => Ok(labels),
            Err(_) => Err(StepError::NoMemory),
        }
    }

    // Why the thread can't step with these names.
    fn refused(&self, thread: ThreadNo, fresh: &Fresh) -> Option<StepError>
        ensures { result ≡ refusal (whole_of self.now) thread fresh.now }
    {
        refused_by(&self.running, thread, fresh)
    }

    // One step that is not refused.
    fn go(&mut self, thread: ThreadNo, fresh: Fresh) -> Result<Labels, NoMemory>
        requires { refusal (whole_of self.old) thread fresh ≡ None }
        ensures stepped { IfOk result (λ l. step (whole_of self.old) thread fresh ≡ Some (record { state = whole_of self.new; labels = l.items })) }
        ensures left { OnOk result (steps_left_of self.new + 1 ≡ steps_left_of self.old) }
        ensures err { OnErr result (self.new ≡ self.old) }
    {
        go(self.alloc, &self.forms, &mut self.running, thread, fresh)
    }

    /// The kind of new names that the thread's next step takes; `None` exactly where the thread isn't there or has
    /// ended. No memory.
    pub fn needs(&self, thread: ThreadNo) -> Option<Need>
        ensures { result ≡ need_of (whole_of self.now) thread }
    {
        need_in(&self.running, thread)
    }

    /// The numbers that were printed, in order.
    pub fn output(&self) -> &[i64]
        ensures { result.now ≡ (whole_of self.now).output }
    {
        self.running.output.as_slice()
    }

    /// How the state stands: finished where all threads have ended, deadlocked where each other one waits, else going.
    /// Takes time in the number of threads, and no memory.
    pub fn ending(&self) -> Ending3
        ensures { result ≡ ending_of (whole_of self.now) }
    {
        ending_in(&self.running)
    }
}
