//! Why an input has no run, and what is written then.

ghost use Rattle.std.specs.Prelude.{◌≡◌, ◌≢◌, IfOk, string_bytes};
ghost use Rattle.source_front.specs.Refusals.{status_of, at_place, token_text, grammar_text, reason_text, text_of};
ghost use Rattle.source_front.specs.declared.refused.Refused.TheVariants.{Fault};

use crate::count::add_count;
use fr_base::NoMemory;
use fr_grammar::ParseError;
use fr_syntax::TokenError;
use fr_typing::Reason;
use std::alloc::Global;

/// Why an input has no run; a place is a byte of the input, from 0.
#[derive(Clone, Copy, Debug, PartialEq, Eq)]
pub enum Refused {
    /// The bytes have no tokens: a byte that begins none, or a name or number beyond its limit.
    Tokens(TokenError),
    /// The tokens are no program: one without an entry in the grammar, or beyond the limits.
    Grammar(ParseError),
    /// The program has a fault of types: its first check that fails.
    Fault { place: u32, reason: Reason },
    /// The order behind the source is none: no mark or no newline before it, a line that isn't in the format, or the first line
    /// whose steps are not all plain steps.
    Order { place: usize },
    NoMemory,
}

impl From<NoMemory> for Refused {
    ghost use Rattle.std.specs.Prelude.{◌≡◌};
    ghost use Rattle.source_front.specs.declared.refused.Refused.TheVariants.{NoMemory as WantsMemory};

    ghost from_gives = { λ _ made. made ≡ WantsMemory };

    fn from(_error: NoMemory) -> Refused {
        Refused::NoMemory
    }
}

// What is refused, and where.
fn placed(alloc: Global, what: &str, place: u64) -> Result<String, NoMemory>
    ensures { IfOk result (λ text. string_bytes text ≡ at_place what.now place) }
{
    let mut text = String::from_str(alloc, "refused ")?;
    text.push_str(what)?;
    text.push_str(" at ")?;
    add_count(&mut text, place)?;
    text.push_str("\n")?;
    Ok(text)
}

fn token_text(alloc: Global, error: TokenError) -> Result<String, NoMemory>
    ensures { IfOk result (λ text. string_bytes text ≡ token_text error) }
{
    match error {
        TokenError::BadByte { place } => placed(alloc, "byte", u64::from(place)),
        TokenError::NameTooLong { place } => placed(alloc, "name", u64::from(place)),
        TokenError::NumberTooLarge { place } => placed(alloc, "number", u64::from(place)),
        TokenError::NoMemory => Err(NoMemory),
    }
}

fn grammar_text(alloc: Global, error: ParseError) -> Result<String, NoMemory>
    ensures { IfOk result (λ text. string_bytes text ≡ grammar_text error) }
{
    match error {
        ParseError::Syntax { place } => placed(alloc, "syntax", u64::from(place)),
        ParseError::TooDeep { place } => placed(alloc, "depth", u64::from(place)),
        ParseError::NoMemory => Err(NoMemory),
    }
}

fn reason_text(reason: Reason) -> &'static str
    ensures { result.now ≡ reason_text reason }
{
    match reason {
        Reason::UnknownName => "unknown name",
        Reason::NameInScope => "name in scope",
        Reason::NotDefined => "not defined",
        Reason::NoTarget => "no target",
        Reason::ReadBlocked => "read blocked",
        Reason::WriteBlocked => "write blocked",
        Reason::MovedThrough => "moved through a reference",
        Reason::NotWritable => "not writable",
        Reason::WrongType => "wrong type",
        Reason::Outlives => "outlives",
        Reason::NotOwned => "not owned",
        Reason::NotFull => "not full",
    }
}

// Where the first check fails, and why.
fn fault_text(alloc: Global, place: u32, reason: Reason) -> Result<String, NoMemory>
    ensures { IfOk result (λ text. string_bytes text ≡ text_of (Fault place reason)) }
{
    let mut text = String::from_str(alloc, "refused type at ")?;
    add_count(&mut text, place as u64)?;
    text.push_str(": ")?;
    text.push_str(reason_text(reason))?;
    text.push_str("\n")?;
    Ok(text)
}

impl Refused {
    /// The status of a source that is refused so.
    pub fn status(self) -> u8
        ensures { result ≡ status_of self }
    {
        match self {
            Refused::Tokens(_) | Refused::Grammar(_) => 3,
            Refused::Fault { .. } => 4,
            Refused::Order { .. } => 10,
            Refused::NoMemory => 8,
        }
    }

    /// The line that is written; none for want of memory.
    pub fn text(self, alloc: Global) -> Result<String, NoMemory>
        ensures text { IfOk result (λ text. string_bytes text ≡ text_of self) }
        ensures cause { IfOk result (λ _. self ≢ Refused.NoMemory) }
    {
        match self {
            Refused::Tokens(error) => token_text(alloc, error),
            Refused::Grammar(error) => grammar_text(alloc, error),
            Refused::Order { place } => placed(alloc, "order", place as u64),
            Refused::Fault { place, reason } => fault_text(alloc, place, reason),
            Refused::NoMemory => Err(NoMemory),
        }
    }
}
