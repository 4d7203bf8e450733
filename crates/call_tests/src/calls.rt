//! What servers tell in the course of runs, and their events one by one.

ghost use Rattle.std.specs.Prelude.{◌<◌};

use crate::chains::{ACROSS, ACROSS_ROWS, NESTED, NESTED_ROWS};
use crate::hand::accept;
use crate::rows::{Row, row_of};
use crate::run::Run;
use crate::told::{same_text, tells};
use fr_base::{Code, Instr, MutexNo, NoMemory, Operand, Options, Released, ThreadNo};
use server_core::Server;
use server_msgs::Message;
use std::alloc::Global;
use std::process::Abort;
use std::sync::Arc;
use std::test::Fail;

// At two servers: main starts a thread and waits for its end. The thread moves to main's server before its one step, and may not move on at once.
const JOINED: &str = "{ let mut h = spawn () { 3 }; print join h }";

const JOINED_ROWS: &str = "\
0: runs 1 0.0, moves 0.0, active 1, waits, inbox 0, sends 0, due, retired 0, events 0, can step:0.0 move:0.0:1
1: runs 0, moves, active 0, waits, inbox 0, sends 0, due, retired 0, events 0, can
0 step 0|1> 1 start
1: runs 0, moves, active 0, waits, inbox 1 start, sends 0, due, retired 0, events 0, can deliver:0
0 step 0|2
0 step 0
0: runs 0, moves, active 1, waits 0.0:join:0.1, inbox 1 join, sends 0, due, retired 0, events 4, can deliver:0
0 deliver 0
0: runs 0, moves, active 1, waits 0.0:join:0.1, inbox 0, sends 0, due, retired 0, events 5, can
1 deliver 0
1: runs 1 0.1, moves 0.1, active 1, waits, inbox 0, sends 0, due, retired 0, events 1, can step:0.1 move:0.1:0
1 migrate 0|1> 0 migrate
1: runs 0, moves, active 0, waits, inbox 0, sends 0, due, retired 0, events 2, can
0: runs 0, moves, active 1, waits 0.0:join:0.1, inbox 1 migrate, sends 0, due, retired 0, events 5, can deliver:0
0 deliver 0
0: runs 1 0.1, moves, active 2, waits 0.0:join:0.1, inbox 0, sends 0, due, retired 0, events 6, can step:0.1 move:0.1:1
0 step 0
0: runs 0, moves, active 1, waits 0.0:join:0.1, inbox 1 finished, sends 0, due, retired 0, events 7, can deliver:0
0 deliver 0
0: runs 0, moves, active 1, waits 0.0:join:0.1, inbox 1 joined, sends 0, due, retired 0, events 8, can deliver:0
0 deliver 0
0: runs 1 0.0, moves, active 1, waits, inbox 0, sends 0, due, retired 0, events 9, can step:0.0
0 step 0
0: runs 1 0.0, moves 0.0, active 1, waits, inbox 0, sends 0, due, retired 0, events 10, can step:0.0 move:0.0:1
0 step 0|3
0: runs 0, moves, active 0, waits, inbox 0, sends 0, due, retired 0, events 13, can
";

// At one server: main holds a mutex and waits for two threads, of which one waits for a thread of its own and then ends, and the other one waits for the mutex for
// good. Who asks for one share more waits too, and isn't told. The threads of the pair come in the other order.
const LOCKED: &str =
    "{ let mut m = mutex 1; let mut n = dup m; lock m as c { par () { let mut h = spawn () { 5 }; let mut r = join h } (n) { lock n as d { print d } } } }";

const LOCKED_ROWS: &str = "\
0 step 0|3
0: runs 0, moves, active 1, waits, inbox 1 dup, sends 0, due, retired 0, events 3, can deliver:0
0 deliver 0|2
0 step 0|3
0: runs 0, moves, active 1, waits 0.0:lock:0.1, inbox 1 lock, sends 0, due, retired 0, events 8, can deliver:0
0 deliver 0
0: runs 0, moves, active 1, waits 0.0:lock:0.1, inbox 1 granted, sends 0, due, retired 0, events 9, can deliver:0
0 deliver 0
0: runs 1 0.0, moves, active 1, waits, inbox 0, sends 0, due, retired 0, events 10, can step:0.0
0 step 0|2
0: runs 0, moves, active 1, waits 0.0:par:0.1:0.2, inbox 2 start start, sends 0, due, retired 0, events 12, can deliver:0 deliver:1
0 deliver 1
0: runs 1 0.2, moves 0.2, active 2, waits 0.0:par:0.1:0.2, inbox 1 start, sends 0, due, retired 0, events 13, can step:0.2 deliver:0
0 deliver 0
0: runs 2 0.1 0.2, moves 0.1, active 3, waits 0.0:par:0.1:0.2, inbox 0, sends 0, due, retired 0, events 14, can step:0.1 step:0.2
0 step 1
0: runs 1 0.1, moves 0.1, active 3, waits 0.0:par:0.1:0.2 0.2:lock:0.1, inbox 1 lock, sends 0, due, retired 0, events 15, can step:0.1 deliver:0
0 deliver 0
0 step 0|4
0: runs 0, moves, active 3, waits 0.0:par:0.1:0.2 0.1:join:0.3 0.2:lock:0.1, inbox 2 start join, sends 0, due, retired 0, events 20, can deliver:0 deliver:1
0 deliver 1
0: runs 0, moves, active 3, waits 0.0:par:0.1:0.2 0.1:join:0.3 0.2:lock:0.1, inbox 1 start, sends 0, due, retired 0, events 21, can deliver:0
0 deliver 0
0: runs 1 0.3, moves 0.3, active 4, waits 0.0:par:0.1:0.2 0.1:join:0.3 0.2:lock:0.1, inbox 0, sends 0, due, retired 0, events 22, can step:0.3
0 step 0
0 deliver 0|2
0: runs 1 0.1, moves, active 3, waits 0.0:par:0.1:0.2 0.2:lock:0.1, inbox 0, sends 0, due, retired 0, events 25, can step:0.1
0 step 0|5
0: runs 0, moves, active 2, waits 0.0:par:0.1:0.2 0.2:lock:0.1, inbox 1 finished, sends 0, due, retired 0, events 30, can deliver:0
0 deliver 0
0: runs 0, moves, active 2, waits 0.0:par:0.1:0.2 0.2:lock:0.1, inbox 0, sends 0, due, retired 0, events 31, can
";

// At two servers that are to keep no copy: a thread reads two boxes. No copy goes while its reference is there; the younger one's goes first, and of two that nobody
// uses the older one is due.
const BOTH: &str =
    "{ let mut x = box 1; let mut y = box 2; let mut a = &*x; let mut b = &*y; par (a, b) { print *a; print *b; print (*a + *b) } () { } }";

const BOTH_ROWS: &str = "\
0 step 0|9> 1 start
0 deliver 0
0 step 0
0 deliver 0
1 deliver 0
1 step 0|1> 0 fetch
0 deliver 0|1> 1 fetched
1: runs 0, moves, active 1, waits, inbox 1 fetched, sends 0, due, retired 0, events 2, can deliver:0
1 deliver 0
1: runs 1 0.1, moves, active 1, waits, inbox 0, sends 0, due, retired 0, events 3, can step:0.1
1 step 0
1: runs 1 0.1, moves 0.1, active 1, waits, inbox 0, sends 0, due, retired 0, events 4, can step:0.1 move:0.1:0
1 step 0
1 step 0|1> 0 fetch
0 deliver 0|1> 1 fetched
1 deliver 0
1 step 0|6
1: runs 1 0.1, moves 0.1, active 1, waits, inbox 0, sends 0, due, retired 0, events 13, can step:0.1 move:0.1:0
1 step 0
1: runs 1 0.1, moves 0.1, active 1, waits, inbox 0, sends 0, due 0:0:1, retired 0, events 14, can step:0.1 move:0.1:0 evict:1
1 step 0
1: runs 1 0.1, moves 0.1, active 1, waits, inbox 0, sends 0, due 0:0:0, retired 0, events 15, can step:0.1 move:0.1:0 evict:0 evict:1
1 evict 0
1: runs 1 0.1, moves 0.1, active 1, waits, inbox 0, sends 0, due 0:0:1, retired 0, events 16, can step:0.1 move:0.1:0 evict:1
1 evict 0
1: runs 1 0.1, moves 0.1, active 1, waits, inbox 0, sends 0, due, retired 0, events 17, can step:0.1 move:0.1:0
1 step 0|1> 0 finished
0 deliver 0
0 step 0|6
0: runs 0, moves, active 0, waits, inbox 2 drop drop, sends 0, due, retired 0, events 21, can deliver:0 deliver:1
0 deliver 0|2
";

// At one server, with two colours: an address is retired by each second write, and by the last free.
const WRITTEN: &str = "{ let mut x = box 0; *x = 1; *x = 2; *x = 3; *x = 4; *x = 5; print *x }";

const WRITTEN_ROWS: &str = "\
0 step 0|4
0: runs 1 0.0, moves 0.0, active 1, waits, inbox 0, sends 0, due, retired 1, events 4, can step:0.0
0 step 0|7
0: runs 0, moves, active 0, waits, inbox 1 drop, sends 0, due, retired 2, events 11, can deliver:0
0 deliver 0
0: runs 0, moves, active 0, waits, inbox 0, sends 0, due, retired 3, events 12, can
";

// The sources with their rows, and which options they have.
const CASES: [(&str, u32, &str); 6] = [
    (JOINED, 2, JOINED_ROWS),
    (LOCKED, 0, LOCKED_ROWS),
    (BOTH, 2, BOTH_ROWS),
    (WRITTEN, 1, WRITTEN_ROWS),
    (NESTED, 2, NESTED_ROWS),
    (ACROSS, 2, ACROSS_ROWS),
];

#[test]
fn servers_tell_what_stands_there(rt: HostRuntime) -> Result<(), Fail> {
    for case in CASES.iter() {
        Run::of(&rt, rt.alloc(), *case, usize::MAX, 0)?;
    }
    Ok(())
}

// A row's event that is done by hand leaves what it left in a run: messages, and what servers tell.
fn same_left<R: Abort>(
    rt: &R,
    alloc: Global,
    whole: &Run,
    part: Run,
    row: Row<'_>,
) -> Result<(), NoMemory> {
    let (mut left, mut there) = (String::new(alloc), String::new(alloc));
    part.by_hand(rt, row, whole, &mut left)?;
    whole.add_left(rt, &mut there, row.sent)?;
    same_text(rt, left.as_str(), there.as_str());
    Ok(())
}

// The last event of the row at that place, by hand behind those before it, leaves what it leaves in a run.
fn by_hand<R: Abort>(
    rt: &R,
    alloc: Global,
    case: (&str, u32, &str),
    at: usize,
    row: Row<'_>,
) -> Result<(), Fail> {
    let whole = Run::of(rt, alloc, case, at, row.times)?;
    let part = Run::of(rt, alloc, case, at, row.times.saturating_sub(1))?;
    same_left(rt, alloc, &whole, part, row)?;
    Ok(())
}

#[test]
fn events_by_hand_leave_the_same(rt: HostRuntime) -> Result<(), Fail> {
    for case in CASES.iter() {
        for (at, row) in case.2.lines().enumerate() {
            let row = row_of(&rt, row);
            if row.times > 0 {
                by_hand(&rt, rt.alloc(), *case, at, row)?;
            }
        }
    }
    Ok(())
}

// A server of two at the start of a program that ends at once.
fn started(alloc: Global, number: u8) -> Result<Server, Fail>
    requires { number < 2 }
{
    let mut code = Code::new(alloc);
    code.push(Instr::End(Operand::Unit))?;
    let options = Options {
        servers: 2,
        ..Options::DEFAULT
    };
    Ok(Server::new(alloc, number, &Arc::new(alloc, code)?, &options)?)
}

const MAIN: &str =
    "runs 1 0.0, moves 0.0, active 1, waits, inbox 0, sends 0, due, retired 0, events 0, can step:0.0 move:0.0:1";

const OTHER: &str =
    "runs 0, moves, active 0, waits, inbox 0, sends 0, due, retired 0, events 0, can";

const FILLED: &str =
    "runs 0, moves, active 0, waits, inbox 3 release dup join, sends 0, due, retired 0, events 0, can deliver:0 deliver:1 deliver:2";

// A server that does nothing tells so, and takes three messages where there is room for three.
fn fill<R: Abort>(rt: &R, alloc: Global, server: &mut Server) -> Result<(), NoMemory> {
    let (mutex, thread) = (MutexNo { home: 1, count: 1 }, ThreadNo::new(1, 1));
    tells(rt, alloc, server, OTHER)?;
    assert!(rt; server.outbox().is_none());
    server.accept_room(3)?;
    accept(rt, server, Message::Release(Released::Mutex(mutex)));
    accept(rt, server, Message::Dup(mutex, 0, thread));
    accept(rt, server, Message::Join(thread, 0, thread));
    tells(rt, alloc, server, FILLED)
}

#[test]
fn servers_start_and_take_messages(rt: HostRuntime) -> Result<(), Fail> {
    tells(&rt, rt.alloc(), &started(rt.alloc(), 0)?, MAIN)?;
    fill(&rt, rt.alloc(), &mut started(rt.alloc(), 1)?)?;
    Ok(())
}
