//! Laws of the definitions.

ghost use Rattle.join_home.specs.Computes.{TasksCompute};

/// Some calls on the threads that a server started, computed.
pub fn tasks_compute()
    ensures { TasksCompute }
{}
