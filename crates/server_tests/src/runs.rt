//! Whole runs of small programs at one server, driven by hand, each with the report that is written of it.

ghost use Rattle.std.specs.Prelude.{◌≡◌, ◌≤◌, ◌++◌, IsSome, IfOk};
ghost use Rattle.server_model.specs.Programs.{with_servers, written_box, lent_slot, often_written};
ghost use Rattle.server_tests.specs.Driving.{run_whole, steps_and_deliveries};

use crate::answers::first_wrong;
use crate::driving::drive;
use fr_base::{Code, Ending, Instr, Lval, NoMemory, Operand, Options, Waits};
use journal::Journal;
use server_core::Server;
use std::alloc::Global;
use std::sync::Arc;
use std::test::Fail;
use tracer::report_text;

// Some instructions as a code.
fn code_of(alloc: Global, instrs: Vec<Instr>) -> Result<Code, NoMemory>
    ensures { IfOk result (λ c. c.items ≡ instrs.items) }
{
    let mut code = Code::new(alloc);
    for instr in instrs {
        code.push(instr)?;
    }
    Ok(code)
}

// A run of one server, with so many colours.
fn one_server(colours: u32) -> Options
    ensures { result ≡ with_servers 1 colours }
{
    Options {
        colours,
        ..Options::DEFAULT
    }
}

// Drives a server through steps of the main thread and deliveries, and gives the report, and how many addresses were retired.
fn driven(
    alloc: Global,
    server: &mut Server,
    steps: u32,
    deliveries: u32,
) -> Result<(String, u64), NoMemory>
    requires { IsSome (steps_and_deliveries server.old.code server.old.options steps deliveries server.old.state) }
{
    let mut journal = Journal::new(alloc);
    drive(server, steps, deliveries, &mut journal)?;
    let is_over = server.active() == 0 && server.waiting() == 0 && server.sending() == 0;
    let ending = if is_over {
        Ending::Finished
    } else {
        Ending::Unfinished
    };
    let text = report_text(alloc, &journal, ending, &Waits::new(alloc))?;
    Ok((text, server.retired()))
}

// The same for the one server of a code, from its start.
#[tactic(auto, using(crate::proofs::DrivingLemmas::starts))]
fn shown(
    alloc: Global,
    code: Code,
    colours: u32,
    steps: u32,
    deliveries: u32,
) -> Result<(String, u64), NoMemory>
    requires colours { (1 ≤ colours) × (colours ≤ 65536) }
    requires result { IsSome (run_whole code.items (with_servers 1 colours) steps deliveries) }
{
    let code = Arc::new(alloc, code)?;
    let mut server = Server::new(alloc, 0, &code, &one_server(colours))?;
    driven(alloc, &mut server, steps, deliveries)
}

// { let mut x = box 1; *x = 2; print *x }
fn written_box(alloc: Global) -> Result<Code, NoMemory>
    ensures { IfOk result (λ c. c.items ≡ written_box) }
{
    let instrs = vec![in alloc;
        Instr::Box(Operand::Const(1)),
        Instr::Let(Operand::Pop),
        Instr::Assign(Lval { slot: 0, depth: 1 }, Operand::Const(2)),
        Instr::Read(Lval { slot: 0, depth: 1 }, false),
        Instr::Print(Operand::Pop),
        Instr::DropSlot,
        Instr::End(Operand::Unit),
    ]?;
    code_of(alloc, instrs)
}

// { let mut x = 1; { let mut r = &mut x; *r = 2 }; print x }
fn lent_slot(alloc: Global) -> Result<Code, NoMemory>
    ensures { IfOk result (λ c. c.items ≡ lent_slot) }
{
    let instrs = vec![in alloc;
        Instr::Let(Operand::Const(1)),
        Instr::BorrowMut(Lval { slot: 0, depth: 0 }),
        Instr::Let(Operand::Pop),
        Instr::Assign(Lval { slot: 1, depth: 1 }, Operand::Const(2)),
        Instr::DropSlot,
        Instr::Read(Lval { slot: 0, depth: 0 }, false),
        Instr::Print(Operand::Pop),
        Instr::DropSlot,
        Instr::End(Operand::Unit),
    ]?;
    code_of(alloc, instrs)
}

// { let mut x = box 0; *x = 1; *x = 2; *x = 3; *x = 4; *x = 5; print *x }
fn often_written(alloc: Global) -> Result<Code, NoMemory>
    ensures { IfOk result (λ c. c.items ≡ often_written) }
{
    let instrs = vec![in alloc;
        Instr::Box(Operand::Const(0)),
        Instr::Let(Operand::Pop),
        Instr::Assign(Lval { slot: 0, depth: 1 }, Operand::Const(1)),
        Instr::Assign(Lval { slot: 0, depth: 1 }, Operand::Const(2)),
        Instr::Assign(Lval { slot: 0, depth: 1 }, Operand::Const(3)),
        Instr::Assign(Lval { slot: 0, depth: 1 }, Operand::Const(4)),
        Instr::Assign(Lval { slot: 0, depth: 1 }, Operand::Const(5)),
        Instr::Read(Lval { slot: 0, depth: 1 }, false),
        Instr::Print(Operand::Pop),
        Instr::DropSlot,
        Instr::End(Operand::Unit),
    ]?;
    code_of(alloc, instrs)
}

fn box_written(alloc: Global) -> Result<(String, u64), NoMemory> {
    shown(alloc, written_box(alloc)?, 65_536, 7, 1)
}

fn slot_lent(alloc: Global) -> Result<(String, u64), NoMemory> {
    shown(alloc, lent_slot(alloc)?, 65_536, 9, 0)
}

fn renewed_twice(alloc: Global) -> Result<(String, u64), NoMemory> {
    shown(alloc, often_written(alloc)?, 2, 11, 1)
}

// What a run gives, which is run once more where a request for memory was refused outside of its events.
fn twice(alloc: Global, row: u32) -> Result<(String, u64), NoMemory> {
    match one_of(alloc, row) {
        Ok(shown) => Ok(shown),
        Err(_) => one_of(alloc, row),
    }
}

fn one_of(alloc: Global, row: u32) -> Result<(String, u64), NoMemory> {
    match row {
        0 => box_written(alloc),
        1 => slot_lent(alloc),
        _ => renewed_twice(alloc),
    }
}

// Whether the report of a row's run has these lines between its ending and its last figures, and so many addresses were retired.
fn tells(alloc: Global, row: u32, figures: &str, retired: u64) -> Result<bool, Fail> {
    let mut want = String::from_str(alloc, "ended finished\n")?;
    want.push_str(figures)?;
    want.push_str("\nhits 0\nevictions 0\nmessages 0\n")?;
    let shown = twice(alloc, row)?;
    Ok(shown.0.as_str() == want.as_str() && shown.1 == retired)
}

// The number of the first wrong row.
fn wrong_run(alloc: Global) -> Result<Option<usize>, Fail> {
    let box_written = "prints 1\n2\norder 1\n0.0 7\nsteps 7\nevents 8\nissued 2\nrenewed 0";
    let slot_lent = "prints 1\n2\norder 1\n0.0 9\nsteps 9\nevents 9\nissued 0\nrenewed 0";
    let renewed = "prints 1\n5\norder 1\n0.0 11\nsteps 11\nevents 12\nissued 6\nrenewed 2";
    let right = [
        tells(alloc, 0, box_written, 0)?,
        tells(alloc, 1, slot_lent, 0)?,
        tells(alloc, 2, renewed, 3)?,
    ];
    Ok(first_wrong(&right))
}

#[test]
fn runs_show_their_figures(rt: HostRuntime) -> Result<(), Fail> {
    assert_eq!(rt; wrong_run(rt.alloc())?, None);
    Ok(())
}
