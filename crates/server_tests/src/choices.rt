//! Choices and balances by hand.

ghost use Rattle.std.specs.Prelude.{◌<◌};

use crate::answers::first_wrong;
use controller::{Choice, Load, balance, next};
use fr_base::{Code, Instr, MutexNo, Operand, Options, ThreadNo};
use server_core::Server;
use server_model::What;
use server_msgs::Message;
use std::alloc::Global;
use std::sync::Arc;
use std::test::Fail;

fn load(threads: u64, count: u32) -> Load {
    Load {
        threads,
        candidate: Some(ThreadNo::new(0, count)),
    }
}

fn fixed(threads: u64) -> Load {
    Load {
        threads,
        candidate: None,
    }
}

fn moved(count: u32, to: u8) -> Option<(ThreadNo, u8)> {
    Some((ThreadNo::new(0, count), to))
}

#[test]
fn which_thread_is_moved(rt: HostRuntime) {
    let five = [load(1, 1), load(3, 2), load(3, 3), load(0, 4), load(0, 5)];
    let right = [
        balance(&[load(3, 1), load(1, 2), load(1, 3)]) == moved(1, 1),
        balance(&[fixed(3), load(1, 2), load(1, 3)]) == None,
        balance(&[load(2, 1), load(1, 2), load(1, 3)]) == None,
        balance(&five) == moved(2, 3),
        balance(&[fixed(3), load(3, 2), fixed(0)]) == None,
        balance(&[load(7, 1)]) == None,
        balance(&[]) == None,
        balance(&[load(0, 1), load(u64::MAX, 2)]) == moved(2, 0),
    ];
    assert_eq!(rt; first_wrong(&right), None);
}

// A server of a run of two, with so many messages.
fn server(alloc: Global, number: u8, messages: u32) -> Result<Server, Fail>
    requires { number < 2 }
{
    let mut code = Code::new(alloc);
    code.push(Instr::End(Operand::Unit))?;
    let code = Arc::new(alloc, code)?;
    let options = Options {
        servers: 2,
        ..Options::DEFAULT
    };
    let mut server = Server::new(alloc, number, &code, &options)?;
    fill(&mut server, messages);
    Ok(server)
}

fn fill(server: &mut Server, messages: u32) {
    for count in 0..messages {
        let mutex = MutexNo { home: 0, count };
        let _put = server.accept(Message::Dupped(mutex, ThreadNo::new(0, 0)));
    }
}

// The words of this generator are those of PCG's reference: 2707161783, 2068313097, 3122475824, 2211639955, 3215226955, 3421331566.
fn drawn(server: &Server) -> [Option<What>; 6] {
    let mut choice = Choice::new(42, 54);
    [
        next(server, &mut choice),
        next(server, &mut choice),
        next(server, &mut choice),
        next(server, &mut choice),
        next(server, &mut choice),
        next(server, &mut choice),
    ]
}

#[test]
fn which_event_is_next(rt: HostRuntime) -> Result<(), Fail> {
    let server = server(rt.alloc(), 0, 2)?;
    let want = [
        Some(What::Deliver(0)),
        Some(What::Deliver(0)),
        Some(What::Step(ThreadNo::new(0, 0))),
        Some(What::Deliver(1)),
        Some(What::Deliver(1)),
        Some(What::Deliver(1)),
    ];
    assert_eq!(rt; drawn(&server), want);
    Ok(())
}

#[test]
fn nothing_is_next_at_an_idle_server(rt: HostRuntime) -> Result<(), Fail> {
    let server = server(rt.alloc(), 1, 0)?;
    assert_eq!(rt; drawn(&server), [None; 6]);
    Ok(())
}
