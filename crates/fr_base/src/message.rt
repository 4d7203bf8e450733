//! Kinds of messages between servers.

ghost use Rattle.std.specs.Prelude.{◌≡◌, ◌<◌};
ghost use Rattle.fr_base.specs.Kinds.{kind_number};

/// What a message between two servers is for. The kinds are numbered in this order, from 0.
#[derive(Clone, Copy, Debug, PartialEq, Eq)]
pub enum Kind {
    Fetch,
    Fetched,
    Move,
    Moved,
    Drop,
    Lock,
    Granted,
    Unlock,
    Dup,
    Dupped,
    Release,
    Start,
    Join,
    Joined,
    Finished,
    Migrate,
}

impl Kind {
    /// The kind's number: below 16.
    pub fn number(self) -> usize
        ensures number { result ≡ kind_number self }
        ensures few { result < 16 }
    {
        match self {
            Kind::Fetch => 0,
            Kind::Fetched => 1,
            Kind::Move => 2,
            Kind::Moved => 3,
            Kind::Drop => 4,
            Kind::Lock => 5,
            Kind::Granted => 6,
            Kind::Unlock => 7,
            Kind::Dup => 8,
            Kind::Dupped => 9,
            Kind::Release => 10,
            Kind::Start => 11,
            Kind::Join => 12,
            Kind::Joined => 13,
            Kind::Finished => 14,
            Kind::Migrate => 15,
        }
    }
}
