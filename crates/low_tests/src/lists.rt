//! Lists that grow, and code whose bodies are put in.

use crate::answers::first_wrong;
use fr_base::{Captures, Code, Instr, Kind, NoMemory, Operand, ThreadNo, Wait, Waits};
use std::alloc::Global;
use std::test::Fail;

// The places of the bodies of the instruction there.
fn bodies(code: &Code, at: u32) -> (u32, u32) {
    match code.at(at) {
        Some(Instr::Spawn(_, body)) => (*body, 0),
        Some(Instr::Par(_, body, _, other)) => (*body, *other),
        _ => (0, 0),
    }
}

fn two_starts(alloc: Global) -> Result<Code, Fail> {
    let mut code = Code::new(alloc);
    code.reserve(3)?;
    code.push(Instr::Spawn(Captures::new(alloc), 0))?;
    code.push(Instr::Par(Captures::new(alloc), 0, Captures::new(alloc), 0))?;
    code.push(Instr::End(Operand::Unit))?;
    Ok(code)
}

// The number of the first wrong answer, where bodies are put in, also where no instruction has one.
fn wrong_body(code: &mut Code) -> Option<usize> {
    code.set_body(0, 7);
    code.set_other(0, 8);
    code.set_body(1, 9);
    code.set_other(1, 10);
    code.set_body(2, 11);
    code.set_body(3, 12);
    let right = [
        bodies(code, 0) == (7, 0),
        bodies(code, 1) == (9, 10),
        code.len() == 3,
        matches!(code.at(2), Some(Instr::End(Operand::Unit))),
        code.at(3).is_none(),
    ];
    first_wrong(&right)
}

#[test]
fn bodies_are_put_into_code(rt: HostRuntime) -> Result<(), Fail> {
    let mut code = two_starts(rt.alloc())?;
    assert_eq!(rt; wrong_body(&mut code), None);
    Ok(())
}

// Whether a list has the two captures that it gets.
fn lists_captures(captures: &mut Captures) -> Result<bool, NoMemory> {
    captures.reserve(1)?;
    captures.push((3, true))?;
    captures.push((1, false))?;
    let ends = (captures.len(), captures.at(1), captures.at(2));
    Ok(
        captures.as_slice() == [(3, true), (1, false)].as_slice()
            && ends == (2, Some(&(1, false)), None),
    )
}

// The same of two waits.
fn lists_waits(waits: &mut Waits, thread: ThreadNo) -> Result<bool, NoMemory> {
    waits.reserve(1)?;
    waits.push((ThreadNo::new(0, 0), Wait::Join(thread)))?;
    waits.push((thread, Wait::Par(thread, thread)))?;
    let last = (thread, Wait::Par(thread, thread));
    Ok((waits.len(), waits.at(1), waits.at(2)) == (2, Some(&last), None))
}

// The number of the first wrong answer, of lists that are empty before.
fn wrong_list(captures: &mut Captures, waits: &mut Waits) -> Result<Option<usize>, NoMemory> {
    let thread = ThreadNo::new(3, 5);
    let right = [
        lists_captures(captures)?,
        lists_waits(waits, thread)?,
        thread.number() == 12_884_901_893,
        ThreadNo::from_number(12_884_901_893) == thread,
        Kind::Fetch.number() == 0,
        Kind::Release.number() == 10,
        Kind::Migrate.number() == 15,
    ];
    Ok(first_wrong(&right))
}

#[test]
fn lists_and_numbers(rt: HostRuntime) -> Result<(), Fail> {
    let mut captures = Captures::new(rt.alloc());
    let mut waits = Waits::new(rt.alloc());
    assert_eq!(rt; wrong_list(&mut captures, &mut waits)?, None);
    Ok(())
}
