//! Chains of boxes that are dropped, each with its trace: what a box holds is given up when its block is freed, so the outermost one goes first.

use crate::run::Run;
use crate::told::same_text;
use std::alloc::Global;
use std::process::Abort;
use std::test::Fail;
use tracer::trace_text;

/// Three boxes at one server, and three more at their addresses once those are free, under the next colour, the last one freed first.
pub const NESTED: &str = "{ { let mut x = box box box 1 }; let mut y = box box box 2 }";

pub const NESTED_ROWS: &str = "\
0 step 0|5
0 deliver 0|3
0: runs 1 0.0, moves 0.0, active 1, waits, inbox 0, sends 0, due, retired 0, events 8, can step:0.0 move:0.0:1
0 step 0|6
0 deliver 0|3
0: runs 0, moves, active 0, waits, inbox 0, sends 0, due, retired 0, events 17, can
";

const NESTED_TRACE: &str = "\
trace 17
0 0.0 step make:0.0#0:0000000000000000 | make:0.0#0:1
0 0.0 step make:0.0#1:0000000000000001 | make:0.0#1:box=0.0#0
0 0.0 step make:0.0#2:0000000000000002 | make:0.0#2:box=0.0#1
0 0.0 step |
0 0.0 step condemn:0.0#2:0000000000000002 | drop:0.0#2
0 - - free:0.0#2:0000000000000002 condemn:0.0#1:0000000000000001 |
0 - - free:0.0#1:0000000000000001 condemn:0.0#0:0000000000000000 |
0 - - free:0.0#0:0000000000000000 |
0 0.0 step make:0.0#3:0001000000000000 | make:0.0#3:2
0 0.0 step make:0.0#4:0001000000000001 | make:0.0#4:box=0.0#3
0 0.0 step make:0.0#5:0001000000000002 | make:0.0#5:box=0.0#4
0 0.0 step |
0 0.0 step condemn:0.0#5:0001000000000002 | drop:0.0#5
0 0.0 step | end:0.0
0 - - free:0.0#5:0001000000000002 condemn:0.0#4:0001000000000001 |
0 - - free:0.0#4:0001000000000001 condemn:0.0#3:0001000000000000 |
0 - - free:0.0#3:0001000000000000 |
";

/// The box in the middle was made at server 1, by a thread that got the innermost one and gave its own back.
pub const ACROSS: &str =
    "{ let mut x = box 1; let mut h = spawn (x) { box x }; let mut z = box join h }";

pub const ACROSS_ROWS: &str = "\
0 step 0|3> 1 start
0 step 0
1 deliver 0
1 step 0|4> 0 finished
0 deliver 0
0 step 0|2
0 deliver 0|2
0 step 0|7
0: runs 0, moves, active 0, waits, inbox 1 drop, sends 0, due, retired 0, events 16, can deliver:0
1: runs 0, moves, active 0, waits, inbox 0, sends 0, due, retired 0, events 5, can
0 deliver 0|1> 1 drop
1: runs 0, moves, active 0, waits, inbox 1 drop, sends 0, due, retired 0, events 5, can deliver:0
1 deliver 0|1> 0 drop
0: runs 0, moves, active 0, waits, inbox 1 drop, sends 0, due, retired 0, events 17, can deliver:0
0 deliver 0
0: runs 0, moves, active 0, waits, inbox 0, sends 0, due, retired 0, events 18, can
1: runs 0, moves, active 0, waits, inbox 0, sends 0, due, retired 0, events 6, can
";

const ACROSS_TRACE: &str = "\
trace 24
0 0.0 step make:0.0#0:0000000000000000 | make:0.0#0:1
0 0.0 step |
0 0.0 thread:0.1 start:0.1:1 | start:0.1
0 0.0 step |
1 - - |
1 0.1 step |
1 0.1 step make:0.1#0:0000010000000000 | make:0.1#0:box=0.0#0
1 0.1 step |
1 0.1 step finish:0.1 | end:0.1
0 - - |
0 0.0 step |
0 0.0 - askjoin:0.1 |
0 - - answer:0.1:0.0:0 |
0 - - |
0 0.0 step |
0 0.0 step make:0.0#1:0000000000000001 | make:0.0#1:box=0.1#0
0 0.0 step |
0 0.0 step condemn:0.0#1:0000000000000001 | drop:0.0#1
0 0.0 step |
0 0.0 step |
0 0.0 step | end:0.0
0 - - free:0.0#1:0000000000000001 condemn:0.1#0:0000010000000000 |
1 - - free:0.1#0:0000010000000000 condemn:0.0#0:0000000000000000 |
0 - - free:0.0#0:0000000000000000 |
";

// The rows of a chain, at two servers, have that trace.
fn goes<R: Abort>(
    rt: &R,
    alloc: Global,
    source: &str,
    rows: &str,
    trace: &str,
) -> Result<(), Fail> {
    let run = Run::of(rt, alloc, (source, 3, rows), usize::MAX, 0)?;
    let text = trace_text(alloc, run.journal())?;
    same_text(rt, text.as_str(), trace);
    Ok(())
}

#[test]
fn chains_go_box_by_box(rt: HostRuntime) -> Result<(), Fail> {
    goes(&rt, rt.alloc(), NESTED, NESTED_ROWS, NESTED_TRACE)?;
    goes(&rt, rt.alloc(), ACROSS, ACROSS_ROWS, ACROSS_TRACE)
}
