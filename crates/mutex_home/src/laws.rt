//! Laws of the definitions.

ghost use Rattle.mutex_home.specs.Computes.{MutexesCompute};

/// Some calls on the mutexes of a server, computed.
pub fn mutexes_compute()
    ensures { MutexesCompute }
{}
