//! Environments that are kept for the next thread.

ghost use Rattle.std.specs.Prelude.{◌≡◌, []};

use crate::rules::keep;
use fr_base::NoMemory;
use fr_types::Env;
use std::alloc::Global;
use std::marker::Model;

/// Environments without slots, whose tables of names are made: making one anew for each thread would cost the numbers of its
/// names each time. Contracts see nothing of them.
#[derive(Drop)]
pub struct Spare {
    alloc: Global,
    envs: Vec<Env>,
}

impl Model for Spare {
    ghost use Rattle.std.specs.Prelude.{◌≡◌, [], All, ⊤};

    ghost Value = { ⊤ };

    ghost view = { λ s. tt };

    ghost invariant = { λ s. All (λ e. e ≡ []) s.envs.items };
}

impl Spare {
    /// None so far.
    pub fn new(alloc: Global) -> Spare {
        Spare {
            alloc,
            envs: Vec::new(alloc),
        }
    }

    /// An environment without slots.
    pub fn take(&mut self) -> Env
        ensures { result ≡ [] }
    {
        match self.envs.pop() {
            Some(env) => env,
            None => Env::new(self.alloc),
        }
    }

    /// Keeps an environment; its slots go.
    pub fn put(&mut self, env: Env) -> Result<(), NoMemory> {
        let mut env = env;
        keep(&mut env, 0);
        self.envs.push(env)?;
        Ok(())
    }
}
