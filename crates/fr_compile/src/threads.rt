//! The code of a program's threads.

ghost use Rattle.std.specs.Prelude.{◌≡◌, ◌+◌, ◌<◌, ◌^◌, length, OnOk};
ghost use Rattle.fr_plain.specs.Run.{steps_left};
ghost use Rattle.fr_forms.specs.FormTerms.{root_of, AreInOrder};
ghost use Rattle.law_plain_table.specs.Bare.{bare};
ghost use Rattle.law_plain_table.specs.CodeOf.{code_of};
ghost use Rattle.fr_compile.specs.Emitting.{IsPlaced};
ghost use Rattle.fr_compile.specs.Filling.{with_place};

use crate::emitting::{drop_all, emit};
use crate::waiting::Waiting;
use fr_base::{Code, Instr, NoMemory};
use fr_forms::Form;
use std::alloc::Global;

// Says in the instruction that starts a thread that the thread's code comes next.
fn set_place(code: &mut Code, waiting: Waiting)
    requires start { waiting.start < length code.old.items }
    requires few { length code.old.items < 2 ^ 32 }
    ensures { code.new.items ≡ with_place waiting.is_second code.old.items waiting.start (length code.old.items) }
{
    let place = code.len() as u32;
    if waiting.is_second {
        code.set_other(waiting.start as u32, place);
    } else {
        code.set_body(waiting.start as u32, place);
    }
}

// Adds the code of a new thread, and says in the instruction that starts the thread where it stands: its body, the slots
// that it drops, and its end.
fn emit_body(
    alloc: Global,
    forms: &[Form],
    waiting: Waiting,
    code: &mut Code,
    queue: &mut Vec<Waiting>,
) -> Result<(), NoMemory>
    requires order { AreInOrder forms.now }
    requires inside { waiting.body < length forms.now }
    requires start { waiting.start < length code.old.items }
    requires few { length code.old.items < 2 ^ 32 }
    ensures { OnOk result (IsPlaced forms.now code.old.items code.new.items queue.old.items queue.new.items waiting) }
{
    set_place(code, waiting);
    let result = emit(alloc, forms, waiting.body as usize, code, queue)?;
    drop_all(code, waiting.drops)?;
    code.push(Instr::End(result))
}

/// The code of the last form's term: the main thread's, and behind it that of the new threads, in the order in which the
/// instructions that start them stand in the code, of a pair the first one first.
pub fn emit_threads(alloc: Global, forms: &[Form], code: &mut Code) -> Result<(), NoMemory>
    requires order { AreInOrder forms.now }
    requires some { 0 < length forms.now }
    requires empty { length code.old.items ≡ 0 }
    requires few { steps_left (root_of forms.now) + 1 < 2 ^ 32 }
    ensures { OnOk result (bare code.new.items ≡ code_of (root_of forms.now)) }
{
    let mut queue = Vec::new(alloc);
    let value = emit(alloc, forms, forms.len() - 1, code, &mut queue)?;
    code.push(Instr::End(value))?;
    let mut next = 0;
    'queue: while next < queue.len() {
        let waiting = queue[next];
        next += 1;
        emit_body(alloc, forms, waiting, code, &mut queue)?;
    }
    Ok(())
}
