//! The code of a program.

ghost use Rattle.std.specs.Prelude.{◌≡◌, ◌+◌, ◌^◌, ◌≤◌, length, IfOk};
ghost use Rattle.fr_typing.specs.Kinds.{Kind};
ghost use Rattle.fr_syntax.specs.Meanings.{term_of};
ghost use Rattle.fr_plain.specs.Resolve.{program};
ghost use Rattle.fr_plain.specs.Run.{steps_left};
ghost use Rattle.fr_code.specs.StandsFor.{IsCodeOf};
ghost use Rattle.law_plain_table.specs.Bare.{bare};
ghost use Rattle.law_plain_table.specs.CodeOf.{code_of};
ghost use Rattle.law_plain_table.specs.Layout.{IsLaidOut};
ghost use Rattle.law_plain_table.specs.Tables.{HasTable};

use crate::threads::emit_threads;
use borrow_check::Checked;
use fr_base::{Code, NoMemory};
use fr_forms::forms_of;
use std::alloc::Global;

/// The code of a checked program, whatever its forms. But for the room that its lists of captured slots have for more it is the code that is defined for the
/// program (`equal`). So it stands for the program and does the program's steps, it has an instruction for each of these, and one more, and no others, in all at most 2^30, and it has a table of types. The main thread's code comes first and ends with its `End`; behind it stands the code of each new thread, in the
/// order in which the instructions that start them stand in the code, of a pair that of the first one first. It takes time in the number of nodes and captured names, and stack in the depth of the program, which is at most 64.
pub fn compile(alloc: Global, checked: &Checked) -> Result<Code, NoMemory>
    ensures equal { IfOk result (λ code. bare code.items ≡ code_of (program (term_of checked.now.arena))) }
    ensures code { IfOk result (λ code. IsCodeOf code.items (program (term_of checked.now.arena))) }
    ensures table { IfOk result (λ code. (k : Kind) × HasTable code.items k) }
    ensures layout { IfOk result (λ code. IsLaidOut code.items) }
    ensures length { IfOk result (λ code. length code.items ≡ steps_left (program (term_of checked.now.arena)) + 1) }
    ensures short { IfOk result (λ code. length code.items ≤ 2 ^ 30) }
{
    let forms = forms_of(alloc, checked)?;
    let mut code = Code::new(alloc);
    // In most programs there are about as many instructions as nodes.
    code.reserve(checked.tree().len() as usize)?;
    emit_threads(alloc, &forms, &mut code)?;
    Ok(code)
}
