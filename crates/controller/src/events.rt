//! The choice of a server's next event.

ghost use Rattle.std.specs.Prelude.{◌≡◌, ◌%◌, ◌<◌, ◌^◌, true, option_map, IfSome, IfNone};
ghost use Rattle.rand_pcg.specs.Pcg.{pcg32};
ghost use Rattle.drive_model.specs.Choice.{generator_of, next};
ghost use Rattle.server_model.specs.Events.{enabled};

use rand_core::utils::NextWord;
use rand_pcg::Lcg64Xsh32;
use server_core::Server;
use server_model::What;
use std::marker::Model;

/// A server's generator: PCG's XSH RR with 64 bits of state and words of 32 bits. Contracts see its state and increment.
#[derive(Drop)]
pub struct Choice {
    generator: Lcg64Xsh32,
}

impl Model for Choice {
    ghost use Rattle.rand_pcg.specs.Lcg.{Lcg};

    ghost Value = { Lcg };

    ghost view = { λ c. c.generator };
}

impl Choice {
    /// The generator of that server, from the state that a run asks for; each server has a stream of its own.
    pub fn new(choice: u64, server: u8) -> Choice
        ensures { result ≡ generator_of choice server }
    {
        Choice {
            generator: Lcg64Xsh32::new(choice, u64::from(server)),
        }
    }

    // One word of the generator, modulo the number of candidates.
    fn draw(&mut self, count: u128) -> usize
        requires { 0 < count }
        ensures place { result ≡ (pcg32 self.old).0 % count }
        ensures left { self.new ≡ (pcg32 self.old).1 }
    {
        let word = self.generator.next_word();
        // A division of short numbers is several times as fast.
        if count <= u128::from(u32::MAX) {
            (word % count as u32) as usize
        } else {
            (u128::from(word) % count) as usize
        }
    }
}

/// The server's next event: the eviction that is due; else a message that waits or a step of a thread that can, drawn by one word of the
/// generator modulo their number. `None` exactly where no eviction is due, no message waits and no thread can step; then no word is
/// drawn, nor for an eviction. The event that it gives is enabled. It takes the time of the server's questions.
pub fn next(server: &Server, choice: &mut Choice) -> Option<What>
    ensures next { next server.now.options server.now.state choice.old ≡ option_map (λ w. record { what = w; generator = choice.new }) result }
    ensures none { IfNone result (choice.new ≡ choice.old) }
    ensures enabled { IfSome result (λ what. enabled server.now.options server.now.state what ≡ true) }
{
    if let Some(word) = server.due() {
        return Some(What::Evict(word));
    }
    let waiting = server.waiting();
    let count = waiting as u128 + server.stepping() as u128;
    if count == 0 {
        return None;
    }
    let place = choice.draw(count);
    if place < waiting {
        return Some(What::Deliver(place));
    }
    match server.runnable(place - waiting) {
        Some(thread) => Some(What::Step(thread)),
        None => unreachable!(),
    }
}
