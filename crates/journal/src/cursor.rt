//! Readers of the parts of a line.

ghost use Rattle.std.specs.Prelude.{◌≡◌, ℕ, ◌≤◌, ◌<◌, ◌-◌, ◌^◌, length, min, IsNone, IfSome};
ghost use Rattle.std.specs.List.{prefix_len};
ghost use Rattle.std.specs.Char.{is_ascii_digit};
ghost use Rattle.fr_base.specs.Numbers.{number_value};
ghost use Rattle.journal.specs.OrderReading.{Gives, is_plain, number_at, behind, name_at, thread_at, mutex_at, numbered_at, one_thread_at, two_threads_at, one_mutex_at, steps_at, line_at};

use crate::order::OrderLine;
use fr_base::{Fresh, MutexNo, ThreadNo};

/// What of a text is still to be read. Where a reader answers `None`, it may have passed some bytes.
#[derive(Drop)]
pub(crate) struct Cursor<'a> {
    pub(crate) rest: &'a [u8],
}

// How many digits come first.
fn digits(bytes: &[u8]) -> usize
    ensures within { result ≤ length bytes.now }
    ensures value { result ≡ prefix_len is_ascii_digit bytes.now }
{
    bytes.iter().take_while(|b| b.is_ascii_digit()).count()
}

// The number that digits stand for, or the largest where it is beyond.
fn number_of(text: &[u8]) -> u64
    ensures { result ≡ min (number_value text.now) (2 ^ 64 - 1) }
{
    let mut value = 0u64;
    for d in text {
        value = value
            .saturating_mul(10)
            .saturating_add(u64::from(d.saturating_sub(b'0')));
    }
    value
}

// Whether these are some digits without a zero in front.
fn is_plain(text: &[u8]) -> bool
    ensures { result ≡ is_plain text.now }
{
    match text {
        [] => false,
        [_] => true,
        [first, ..] => *first != b'0',
    }
}

impl<'a> Cursor<'a> {
    /// The digits in front, as a number up to the limit, without zeros in front.
    #[tactic(auto, unfolding(crate::specs::OrderReading::number_at))]
    pub(crate) fn number(&mut self, limit: u64) -> Option<u64>
        requires { limit < 2 ^ 64 - 1 }
        ensures value { Gives (λ n. (n, self.new.rest.now)) result (number_at limit self.old.rest.now) }
        ensures limited { IfSome result (λ n. n ≤ limit) }
    {
        let (text, rest) = self.rest.split_at(digits(self.rest));
        let number = number_of(text);
        if !is_plain(text) || number > limit {
            return None;
        }
        self.rest = rest;
        Some(number)
    }

    /// Passes a text, where it comes first; else nothing is passed.
    pub(crate) fn pass(&mut self, text: &[u8]) -> Option<()>
        ensures value { Gives (λ _. self.new.rest.now) result (behind text.now self.old.rest.now) }
        ensures kept { IsNone result → self.new.rest.now ≡ self.old.rest.now }
    {
        match self.rest.strip_prefix(text) {
            Some(rest) => {
                self.rest = rest;
                Some(())
            }
            None => None,
        }
    }

    // A server and a count.
    #[tactic(auto, unfolding(crate::specs::OrderReading::name_at))]
    fn name(&mut self) -> Option<(u8, u32)>
        ensures { Gives (λ n. (n, self.new.rest.now)) result (name_at self.old.rest.now) }
    {
        let server = self.number(255)?;
        self.pass(b".")?;
        let count = self.number(4_294_967_295)?;
        Some((server as u8, count as u32))
    }

    #[tactic(auto, unfolding(crate::specs::OrderReading::thread_at))]
    fn thread(&mut self) -> Option<ThreadNo>
        ensures { Gives (λ t. (t, self.new.rest.now)) result (thread_at self.old.rest.now) }
    {
        let (server, count) = self.name()?;
        Some(ThreadNo::new(server, count))
    }

    #[tactic(auto, unfolding(crate::specs::OrderReading::mutex_at))]
    fn mutex(&mut self) -> Option<MutexNo>
        ensures { Gives (λ m. (m, self.new.rest.now)) result (mutex_at self.old.rest.now) }
    {
        let (home, count) = self.name()?;
        Some(MutexNo { home, count })
    }

    // How many steps, from 1 to a billion.
    #[tactic(auto, unfolding(crate::specs::OrderReading::numbered_at))]
    fn numbered(&mut self) -> Option<(u64, Fresh)>
        ensures { Gives (λ s. (s, self.new.rest.now)) result (numbered_at self.old.rest.now) }
    {
        let steps = self.number(1_000_000_000)?;
        if steps == 0 {
            return None;
        }
        Some((steps, Fresh::None))
    }

    #[tactic(auto, unfolding(crate::specs::OrderReading::one_thread_at))]
    fn one_thread(&mut self) -> Option<(u64, Fresh)>
        ensures { Gives (λ s. (s, self.new.rest.now)) result (one_thread_at self.old.rest.now) }
    {
        let thread = self.thread()?;
        Some((1, Fresh::Thread(thread)))
    }

    #[tactic(auto, unfolding(crate::specs::OrderReading::two_threads_at))]
    fn two_threads(&mut self) -> Option<(u64, Fresh)>
        ensures { Gives (λ s. (s, self.new.rest.now)) result (two_threads_at self.old.rest.now) }
    {
        let first = self.thread()?;
        self.pass(b" ")?;
        let second = self.thread()?;
        Some((1, Fresh::Threads(first, second)))
    }

    #[tactic(auto, unfolding(crate::specs::OrderReading::one_mutex_at))]
    fn one_mutex(&mut self) -> Option<(u64, Fresh)>
        ensures { Gives (λ s. (s, self.new.rest.now)) result (one_mutex_at self.old.rest.now) }
    {
        let mutex = self.mutex()?;
        Some((1, Fresh::Mutex(mutex)))
    }

    // How many steps, and the names that each takes.
    #[tactic(auto, unfolding(crate::specs::OrderReading::steps_at))]
    fn steps(&mut self) -> Option<(u64, Fresh)>
        ensures { Gives (λ s. (s, self.new.rest.now)) result (steps_at self.old.rest.now) }
    {
        if self.pass(b"thread ").is_some() {
            return self.one_thread();
        }
        if self.pass(b"threads ").is_some() {
            return self.two_threads();
        }
        if self.pass(b"mutex ").is_some() {
            return self.one_mutex();
        }
        self.numbered()
    }

    /// The line in front, which starts at `place`.
    #[tactic(auto, unfolding(crate::specs::OrderReading::line_at))]
    pub(crate) fn line(&mut self, place: usize) -> Option<OrderLine>
        ensures { Gives (λ l. (l, self.new.rest.now)) result (line_at place self.old.rest.now) }
    {
        let thread = self.thread()?;
        self.pass(b" ")?;
        let (steps, fresh) = self.steps()?;
        self.pass(b"\n")?;
        Some(OrderLine {
            place,
            thread,
            steps,
            fresh,
        })
    }
}
