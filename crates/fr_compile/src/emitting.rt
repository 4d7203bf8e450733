//! The instructions of a form.

ghost use Rattle.std.specs.Prelude.{◌≡◌, ◌<◌, ◌≤◌, ◌++◌, [], ◌∷◌, false, true, length, IfOk, OnOk};
ghost use Rattle.fr_base.specs.declared.instruction.Instr.TheVariants as instr;
ghost use Rattle.fr_base.specs.declared.instruction.Operand.TheVariants as operand;
ghost use Rattle.fr_forms.specs.FormTerms.{term_of, parts_of, captures_of, AreInOrder};
ghost use Rattle.fr_syntax.specs.Meanings.{AllBelow};
ghost use Rattle.fr_code.specs.StandsFor.{borrowing};
ghost use Rattle.law_plain_table.specs.Bare.{bare};
ghost use Rattle.law_plain_table.specs.CodeOf.{slots};
ghost use Rattle.fr_compile.specs.Emitting.{waits_at, drop_slots, ArePartsEmitted, IsDiscarded, IsEmitted};

use crate::waiting::Waiting;
use fr_base::{Captures, Code, Instr, Lval, NoMemory, Operand};
use fr_forms::{Body, Captured, Form};
use std::alloc::Global;

// Adds an instruction that leaves a temporary value.
fn leave(code: &mut Code, instr: Instr) -> Result<Operand, NoMemory>
    ensures code { OnOk result (code.new.items ≡ code.old.items ++ instr ∷ []) }
    ensures value { IfOk result (λ value. value ≡ operand.Pop) }
{
    code.push(instr)?;
    Ok(Operand::Pop)
}

// Adds an instruction whose value is the constant unit.
fn finish(code: &mut Code, instr: Instr) -> Result<Operand, NoMemory>
    ensures code { OnOk result (code.new.items ≡ code.old.items ++ instr ∷ []) }
    ensures value { IfOk result (λ value. value ≡ operand.Unit) }
{
    code.push(instr)?;
    Ok(Operand::Unit)
}

// A constant.
fn constant(value: &i64) -> Operand
    ensures { result ≡ operand.Const value.now }
{
    Operand::Const(*value)
}

// A reference of either kind.
fn borrow(place: Lval, is_mut: bool) -> Instr
    ensures { result ≡ borrowing place is_mut }
{
    if is_mut {
        Instr::BorrowMut(place)
    } else {
        Instr::Borrow(place)
    }
}

// Gives up the value of a term before a `;`.
fn discard(code: &mut Code, value: Operand) -> Result<(), NoMemory>
    ensures { OnOk result (IsDiscarded code.old.items value code.new.items) }
{
    match value {
        Operand::Pop => code.push(Instr::Discard),
        _ => Ok(()),
    }
}

/// Drops so many slots.
pub fn drop_all(code: &mut Code, slots: u32) -> Result<(), NoMemory>
    ensures { OnOk result (code.new.items ≡ code.old.items ++ drop_slots slots) }
{
    'slots: for _ in 0..slots {
        code.push(Instr::DropSlot)?;
    }
    Ok(())
}

// The captured slots of a new thread, in order.
fn list_captures(alloc: Global, captures: &[Captured]) -> Result<Captures, NoMemory>
    ensures { IfOk result (λ list. list.items ≡ (slots (captures_of captures.now)).items) }
{
    let mut list = Captures::new(alloc);
    'slots: for next in captures.iter() {
        list.push((next.slot, next.take))?;
    }
    Ok(list)
}

// Starts a new thread, whose code is still to come.
fn spawn(
    alloc: Global,
    captures: &[Captured],
    body: u32,
    drops: u32,
    code: &mut Code,
    queue: &mut Vec<Waiting>,
) -> Result<Operand, NoMemory>
    ensures code { OnOk result (bare code.new.items ≡ bare code.old.items ++ instr.Spawn (slots (captures_of captures.now)) 0 ∷ []) }
    ensures queue { OnOk result (queue.new.items ≡ queue.old.items ++ waits_at (length code.old.items) false body drops ∷ []) }
    ensures value { IfOk result (λ value. value ≡ operand.Pop) }
{
    let captures = list_captures(alloc, captures)?;
    queue.push(Waiting {
        start: code.len(),
        is_second: false,
        body,
        drops,
    })?;
    leave(code, Instr::Spawn(captures, 0))
}

// Starts two new threads, whose code is still to come, and waits for both.
fn par(
    alloc: Global,
    ours: &Body,
    theirs: &Body,
    code: &mut Code,
    queue: &mut Vec<Waiting>,
) -> Result<Operand, NoMemory>
    ensures code { OnOk result (bare code.new.items ≡ bare code.old.items ++ instr.Par (slots (captures_of ours.now.captures.items)) 0 (slots (captures_of theirs.now.captures.items)) 0 ∷ instr.ParEnd ∷ []) }
    ensures queue { OnOk result (queue.new.items ≡ queue.old.items ++ waits_at (length code.old.items) false ours.now.term ours.now.drops ∷ waits_at (length code.old.items) true theirs.now.term theirs.now.drops ∷ []) }
    ensures value { IfOk result (λ value. value ≡ operand.Unit) }
{
    let captures = list_captures(alloc, &ours.captures)?;
    let others = list_captures(alloc, &theirs.captures)?;
    queue.push(Waiting {
        start: code.len(),
        is_second: false,
        body: ours.term,
        drops: ours.drops,
    })?;
    queue.push(Waiting {
        start: code.len(),
        is_second: true,
        body: theirs.term,
        drops: theirs.drops,
    })?;
    code.push(Instr::Par(captures, 0, others, 0))?;
    finish(code, Instr::ParEnd)
}

// Drops so many slots and unlocks the mutex.
fn unlock(code: &mut Code, slots: u32) -> Result<(), NoMemory>
    ensures { OnOk result (code.new.items ≡ (code.old.items ++ drop_slots slots) ++ instr.Unlock ∷ []) }
{
    drop_all(code, slots)?;
    code.push(Instr::Unlock)
}

// Adds the code of a block's items, which are forms below that number, and says where the last one's value is found.
#[cycle(emit)]
fn emit_items(
    alloc: Global,
    forms: &[Form],
    items: &[u32],
    bound: usize,
    code: &mut Code,
    queue: &mut Vec<Waiting>,
) -> Result<Operand, NoMemory>
    requires order { AreInOrder forms.now }
    requires inside { bound ≤ length forms.now }
    requires below { AllBelow bound items.now }
    ensures { IfOk result (λ value. ArePartsEmitted forms.now code.old.items code.new.items queue.old.items queue.new.items value (parts_of (term_of forms.now) items.now)) }
{
    let mut value = Operand::Unit;
    'items: for next in 0..items.len() {
        discard(code, value)?;
        value = emit(alloc, forms, items[next] as usize, code, queue)?;
    }
    Ok(value)
}

/// Adds the code of a form, and says where its value is found. The threads that it starts wait behind those that wait already.
#[cycle(emit)]
pub fn emit(
    alloc: Global,
    forms: &[Form],
    node: usize,
    code: &mut Code,
    queue: &mut Vec<Waiting>,
) -> Result<Operand, NoMemory>
    requires order { AreInOrder forms.now }
    requires here { node < length forms.now }
    ensures { IfOk result (λ value. IsEmitted forms.now code.old.items code.new.items queue.old.items queue.new.items value (term_of forms.now node)) }
{
    match &forms[node] {
        Form::Number(value) => Ok(constant(value)),
        Form::Unit => Ok(Operand::Unit),
        Form::Place => Ok(Operand::Unit),
        Form::Read(place, take) => leave(code, Instr::Read(*place, *take)),
        Form::Borrow(place, is_mut) => leave(code, borrow(*place, *is_mut)),
        Form::Box(part) => {
            let value = emit(alloc, forms, *part as usize, code, queue)?;
            leave(code, Instr::Box(value))
        }
        Form::Join(part) => {
            let value = emit(alloc, forms, *part as usize, code, queue)?;
            leave(code, Instr::Join(value))
        }
        Form::Mutex(part) => {
            let value = emit(alloc, forms, *part as usize, code, queue)?;
            leave(code, Instr::Mutex(value))
        }
        Form::Dup(place) => leave(code, Instr::Dup(*place)),
        Form::Lock(place, body, drops) => {
            code.push(Instr::Lock(*place))?;
            let value = emit(alloc, forms, *body as usize, code, queue)?;
            unlock(code, *drops)?;
            Ok(value)
        }
        Form::Spawn(captures, body, drops) => { spawn(alloc, captures, *body, *drops, code, queue) }
        Form::Par(ours, theirs) => par(alloc, ours, theirs, code, queue),
        Form::Let(part) => {
            let value = emit(alloc, forms, *part as usize, code, queue)?;
            finish(code, Instr::Let(value))
        }
        Form::Print(part) => {
            let value = emit(alloc, forms, *part as usize, code, queue)?;
            finish(code, Instr::Print(value))
        }
        Form::Assign(place, part) => {
            let value = emit(alloc, forms, *part as usize, code, queue)?;
            finish(code, Instr::Assign(*place, value))
        }
        Form::Arith(op, left, right) => {
            let left = emit(alloc, forms, *left as usize, code, queue)?;
            let right = emit(alloc, forms, *right as usize, code, queue)?;
            leave(code, Instr::Arith(*op, left, right))
        }
        Form::Block(items, lets) => {
            let value = emit_items(alloc, forms, items, node, code, queue)?;
            drop_all(code, *lets)?;
            Ok(value)
        }
    }
}
