//! The word and its fields.

ghost use Rattle.std.specs.Prelude.{◌≡◌, ◌+◌, ◌<◌, ◌≤◌, ◌^◌, ◌↔◌, ℕ, IfSome, IsSome};
ghost use Rattle.global_addr.specs.Words.{word_of, colour_of, server_of, address_of, spot_of, next_word};

use std::marker::Model;

/// A pointer word: bits 63 to 48 are the colour, bits 47 to 40 the server, bits 39 to 0 the address.
/// Contracts see it as the number `colour * 2^48 + server * 2^40 + address`. A colour lives in pointers alone: the home
/// finds an object by its address. No call here takes memory.
#[derive(Clone, Copy, Debug, PartialEq, Eq, Hash)]
pub struct Word(u64);

impl Model for Word {
    ghost use Rattle.std.specs.Prelude.{ℕ};

    ghost Value = { ℕ };

    ghost view = { λ w. w.0 };

    ghost inverse = { λ n. record { 0 = n } };
}

// Where the colour begins in a word, 2^48, and where the server does, 2^40.
const COLOUR: u64 = 281_474_976_710_656;

const SERVER: u64 = 1_099_511_627_776;

impl Word {
    /// The word of that colour, server and address; the address is below 2^40.
    pub fn pack(colour: u16, server: u8, address: u64) -> Word
        requires { address < 2 ^ 40 }
        ensures word { result ≡ word_of colour server address }
        ensures colour { colour_of result ≡ colour }
        ensures server { server_of result ≡ server }
        ensures address { address_of result ≡ address }
    {
        Word(u64::from(colour) * COLOUR + u64::from(server) * SERVER + address)
    }

    /// The word as one number.
    pub fn number(self) -> u64
        ensures { result ≡ self }
    {
        self.0
    }

    /// The colour.
    pub fn colour(self) -> u16
        ensures { result ≡ colour_of self }
    {
        (self.0 / COLOUR) as u16
    }

    /// The server whose memory the word points into.
    pub fn server(self) -> u8
        ensures { result ≡ server_of self }
    {
        (self.0 % COLOUR / SERVER) as u8
    }

    /// The address at that server, below 2^40.
    pub fn address(self) -> u64
        ensures address { result ≡ address_of self }
        ensures below { result < 2 ^ 40 }
    {
        self.0 % SERVER
    }

    /// The same server and address with the next colour; `None` exactly where the colour is the last, `limit - 1`.
    /// The colour is below `limit`, and `limit` is from 1 to 65,536.
    pub fn next_colour(self, limit: u32) -> Option<Word>
        requires colour { colour_of self < limit }
        requires limit { limit ≤ 65536 }
        ensures some { IsSome result ↔ (colour_of self + 1 < limit) }
        ensures word { IfSome result (λ w. w ≡ next_word self) }
        ensures colour { IfSome result (λ w. colour_of w ≡ colour_of self + 1) }
        ensures spot { IfSome result (λ w. spot_of w ≡ spot_of self) }
    {
        if u32::from(self.colour()) + 1 < limit {
            Some(Word(self.0 + COLOUR))
        } else {
            None
        }
    }
}

/// What the parts of words have to do with one another. A word is the word of its parts (`parts`), so words with the same
/// colour and spot are equal (`same`); the word of a colour, a server below 2^8 and an address below 2^40 has these parts
/// (`packed`); a spot is a server and an address (`spot`); the next word keeps the spot and has the next colour (`next`).
pub fn words_law()
    ensures parts { (w : ℕ) → w ≡ word_of (colour_of w) (server_of w) (address_of w) }
    ensures same { (v w : ℕ) → colour_of v ≡ colour_of w → spot_of v ≡ spot_of w → v ≡ w }
    ensures packed { (c s a : ℕ) → s < 2 ^ 8 → a < 2 ^ 40 → (colour_of (word_of c s a) ≡ c) × (server_of (word_of c s a) ≡ s) × (address_of (word_of c s a) ≡ a) }
    ensures spot { (v w : ℕ) → (spot_of v ≡ spot_of w) ↔ ((server_of v ≡ server_of w) × (address_of v ≡ address_of w)) }
    ensures small { (w : ℕ) → (server_of w < 2 ^ 8) × (address_of w < 2 ^ 40) × (spot_of w < 2 ^ 48) }
    ensures next { (w : ℕ) → (colour_of (next_word w) ≡ colour_of w + 1) × (spot_of (next_word w) ≡ spot_of w) }
{}
