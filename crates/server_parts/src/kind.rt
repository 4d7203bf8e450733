//! Which marks a thread has.

ghost use Rattle.std.specs.Prelude.{◌≡◌, IsTrue};
ghost use Rattle.server_parts.specs.Seen.{in_runnable, in_waiting, in_movable};

/// Which marks a thread has.
#[derive(Clone, Copy, PartialEq, Eq)]
pub(crate) enum Kind {
    /// None.
    Other,
    /// It can step.
    Steps,
    /// It can step, and may be moved.
    Moves,
    /// It waits at a lock, a join or a pair.
    Waits,
}

impl Kind {
    /// Whether both are the same.
    #[inline]
    pub fn is(self, other: Kind) -> bool
        ensures { IsTrue result → self ≡ other }
    {
        self == other
    }

    /// Whether it is among those that can step.
    #[inline]
    pub fn is_runnable(self) -> bool
        ensures { result ≡ in_runnable self }
    {
        matches!(self, Kind::Steps | Kind::Moves)
    }

    /// Whether it is among those that wait.
    #[inline]
    pub fn is_waiting(self) -> bool
        ensures { result ≡ in_waiting self }
    {
        matches!(self, Kind::Waits)
    }

    /// Whether it is among those that may be moved.
    #[inline]
    pub fn is_movable(self) -> bool
        ensures { result ≡ in_movable self }
    {
        matches!(self, Kind::Moves)
    }
}
