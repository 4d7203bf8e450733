//! Laws of the definitions.

ghost use Rattle.fr_acts.specs.MutexActs.{ActsGo};

/// Where an act on mutexes is one of the plain machine, the code can do it, but for room.
pub fn mutex_acts_go()
    ensures { ActsGo }
{}
