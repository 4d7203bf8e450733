//! The hash of a word.

ghost use Rattle.std.specs.Prelude.{◌≡◌, slice_index};
ghost use Rattle.read_cache.specs.Hash.{folded, mixed, written};

use std::hash::{BuildHasher, Hasher};

const MULTIPLIER: u64 = 0x9e37_79b9_7f4a_7c15;

// Hashes a word by one multiplication.
#[derive(Clone, Copy)]
pub(crate) struct WordHasher(u64);

// The two halves of the product, joined.
fn fold(a: u64, b: u64) -> u64
    ensures { result ≡ folded a b }
{
    let product = a as u128 * b as u128;
    (product & 0xFFFF_FFFF_FFFF_FFFF) as u64 ^ (product >> 64) as u64
}

// The state that takes in a number.
fn mix(state: u64, number: u64) -> u64
    ensures { result ≡ mixed state number }
{
    fold(state ^ number, MULTIPLIER)
}

// The byte at that place; 0 where there is none.
fn byte(bytes: &[u8], at: usize) -> u8
    ensures { result ≡ slice_index bytes.now at }
{
    match bytes.get(at) {
        Some(byte) => *byte,
        None => 0,
    }
}

impl WordHasher {
    // Nothing was hashed yet.
    pub(crate) fn new() -> WordHasher {
        WordHasher(0)
    }
}

impl Hasher for WordHasher {
    ghost write = { λ s bytes. record { 0 = written s.0 bytes } };

    ghost finish = { λ s. s.0 };

    fn finish(&self) -> u64 {
        self.0
    }

    fn write(&mut self, bytes: &[u8]) {
        let number = u64::from_le_bytes([
            byte(bytes, 0),
            byte(bytes, 1),
            byte(bytes, 2),
            byte(bytes, 3),
            byte(bytes, 4),
            byte(bytes, 5),
            byte(bytes, 6),
            byte(bytes, 7),
        ]);
        self.0 = mix(self.0, number);
    }

    fn write_u64(&mut self, number: u64) {
        self.0 = mix(self.0, number);
    }
}

impl BuildHasher for WordHasher {
    type Hasher = WordHasher;

    ghost build_hasher = { λ s. s };

    fn build_hasher(&self) -> WordHasher {
        *self
    }
}
