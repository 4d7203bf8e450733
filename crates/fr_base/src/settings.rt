//! What a run is asked to be like.

/// What a run is asked to be like. Each field has a range, whose last value is a constant here, and a default, which is its
/// value in `Options::DEFAULT`.
#[derive(Clone, Copy, Debug, PartialEq, Eq)]
pub struct Options {
    /// How many servers there are: 1 to `MAX_SERVERS`, by default 1.
    pub servers: u8,
    /// How many workers do the servers' events of a round beside one another: 1 to `MAX_WORKERS`, by default 1. A run doesn't
    /// depend on it.
    pub workers: u8,
    /// How many colours a word has: 1 to `MAX_COLOURS`, by default all.
    pub colours: u32,
    /// How many copies a server keeps before it evicts those that nobody uses: 0 to `MAX_CACHE`, by default 64.
    pub cache: u32,
    /// How many events a server does in a round at most: 1 to `MAX_QUANTUM`, by default 16.
    pub quantum: u32,
    /// How many events a run has at most: 1 to `MAX_TURNS`, by default 1,000,000.
    pub turns: u64,
    /// After how many rounds a thread is moved from the busiest server to the idlest: 1 to `MAX_BALANCE`, or 0, the default,
    /// where none is ever moved.
    pub balance: u32,
    /// What the generator starts from that chooses each next event: any number, by default 0.
    pub choice: u64,
    /// Whether each event is written out too; by default it isn't.
    pub trace: bool,
}

impl Options {
    pub const MAX_SERVERS: u8 = 64;

    pub const MAX_WORKERS: u8 = 64;

    pub const MAX_COLOURS: u32 = 65_536;

    pub const MAX_CACHE: u32 = 65_536;

    pub const MAX_QUANTUM: u32 = 1_024;

    pub const MAX_TURNS: u64 = 1_000_000_000;

    pub const MAX_BALANCE: u32 = 1_000_000;

    /// What a run is like that is asked nothing.
    pub const DEFAULT: Options = Options {
        servers: 1,
        workers: 1,
        colours: Options::MAX_COLOURS,
        cache: 64,
        quantum: 16,
        turns: 1_000_000,
        balance: 0,
        choice: 0,
        trace: false,
    };
}
