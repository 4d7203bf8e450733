//! Laws of the definitions.

ghost use Rattle.fr_shared.specs.Shares.{ActsChange, SharesRelease};
ghost use Rattle.fr_plain.specs.Run.{Run};

/// A share that goes takes with it what the plain machine says: the last one the content, where that is in.
pub fn shares_release()
    ensures { SharesRelease Run }
{}

/// What the plain machine's acts do to its mutexes are the changes that the calls make: `dup` counts a share more, a lock takes
/// the content out, and an unlock puts one in.
pub fn acts_change()
    ensures { ActsChange Run }
{}
