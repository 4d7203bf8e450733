//! Places as they are written.

/// A name's number and the stars before it, and the byte of the source where the first token stands.
#[derive(Clone, Copy, Debug)]
pub struct Written {
    pub name: u32,
    pub stars: u8,
    pub place: u32,
}

/// The number of a captured name, and the byte of the source where it stands.
#[derive(Clone, Copy, Debug)]
pub struct Name {
    pub name: u32,
    pub place: u32,
}

/// The term that starts new threads, with captured names: `Spawn` goes on beside its thread, `Par` waits for its two.
#[derive(Clone, Copy, Debug)]
pub enum Starter {
    Spawn,
    Par,
}
