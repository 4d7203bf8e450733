//! Readers of single tokens, and of places.

ghost use Rattle.std.specs.Prelude.{◌≡◌, ℕ, ◌+◌, ◌≤◌, ◌<◌, length, IfOk};
ghost use Rattle.fr_terms.specs.Terms.{Text, Spot, Term};
ghost use Rattle.fr_syntax.specs.Arena.{text_of};
ghost use Rattle.fr_syntax.specs.TokenList.{AreReadable};
ghost use Rattle.fr_grammar.specs.Reading.{Gives, place_of, is_terminal, after_terminal, name_at, bound_at, is_star, stars_of, turned_at, op_at, held_at, comma_at, deep_at, next_at, used, ended_at};

use crate::fault::ParseError;
use fr_base::Op;
use fr_syntax::{Token, TokenKind};

/// A word or mark that has to come at its place in a term: `mut`, `=`, `(`, `)` and `as`.
#[derive(Clone, Copy)]
pub(crate) enum Terminal {
    Mut,
    Equals,
    Open,
    Close,
    As,
}

/// What stands behind an item of a block.
#[derive(Clone, Copy, Debug, PartialEq, Eq)]
pub enum Next {
    /// The block ends.
    Close,
    /// The block ends with the constant unit at this place.
    LastUnit(u32),
    /// Another item comes.
    More,
}

/// Where the first token starts; 0 where there is none.
pub(crate) fn place_of(tokens: &[Token]) -> u32
    ensures { result ≡ place_of tokens.now }
{
    match tokens {
        [first, ..] => first.start,
        [] => 0,
    }
}

fn is_terminal(token: &Token, expected: Terminal) -> bool
    ensures { result ≡ is_terminal expected token.now.kind }
{
    match expected {
        Terminal::Mut => matches!(token.kind, TokenKind::MutWord),
        Terminal::Equals => matches!(token.kind, TokenKind::Equals),
        Terminal::Open => matches!(token.kind, TokenKind::OpenParen),
        Terminal::Close => matches!(token.kind, TokenKind::CloseParen),
        Terminal::As => matches!(token.kind, TokenKind::AsWord),
    }
}

/// The tokens behind this terminal, which has to come first.
#[tactic(auto, unfolding(crate::specs::Reading::after_terminal))]
pub(crate) fn expect(tokens: &[Token], expected: Terminal) -> Result<&[Token], ParseError>
    ensures value { Gives (λ rest. rest.now) result (after_terminal expected tokens.now) }
    ensures one { IfOk result (λ rest. length rest.now + 1 ≡ length tokens.now) }
    ensures readable { (n : ℕ) → AreReadable n tokens.now → IfOk result (λ rest. AreReadable n rest.now) }
{
    match tokens {
        [first, rest @ ..] if is_terminal(first, expected) => Ok(rest),
        _ => Err(ParseError::Syntax {
            place: place_of(tokens),
        }),
    }
}

/// The number of a name.
#[tactic(auto, unfolding(crate::specs::Reading::name_at))]
pub(crate) fn name_at(tokens: &[Token]) -> Result<(u32, &[Token]), ParseError>
    ensures value { Gives (λ x. (x.0, x.1.now)) result (name_at tokens.now) }
    ensures one { IfOk result (λ x. length x.1.now + 1 ≡ length tokens.now) }
    ensures readable { (n : ℕ) → AreReadable n tokens.now → IfOk result (λ x. (x.0 < n) × AreReadable n x.1.now) }
{
    let [first, rest @ ..] = tokens else {
        return Err(ParseError::Syntax { place: 0 });
    };
    match first.kind {
        TokenKind::Name(name) => Ok((name, rest)),
        _ => Err(ParseError::Syntax { place: first.start }),
    }
}

/// The name of a `let`, behind that word and up to the `=`.
#[tactic(auto, unfolding(crate::specs::Reading::bound_at))]
pub(crate) fn bound_at(tokens: &[Token]) -> Result<(u32, &[Token]), ParseError>
    ensures value { Gives (λ x. (x.0, x.1.now)) result (bound_at tokens.now) }
    ensures three { IfOk result (λ x. length x.1.now + 3 ≡ length tokens.now) }
    ensures readable { (n : ℕ) → AreReadable n tokens.now → IfOk result (λ x. (x.0 < n) × AreReadable n x.1.now) }
{
    let rest = expect(tokens, Terminal::Mut)?;
    let (name, rest) = name_at(rest)?;
    let rest = expect(rest, Terminal::Equals)?;
    Ok((name, rest))
}

fn is_star(token: &Token) -> bool
    ensures { result ≡ is_star token.now.kind }
{
    matches!(token.kind, TokenKind::Star)
}

/// How many stars come first.
pub(crate) fn stars_of(tokens: &[Token]) -> usize
    ensures within { result ≤ length tokens.now }
    ensures value { result ≡ stars_of tokens.now }
{
    tokens.iter().take_while(|t| is_star(*t)).count()
}

/// The number behind a minus, turned round.
#[tactic(auto, unfolding(crate::specs::Reading::turned_at))]
pub(crate) fn turned_at(tokens: &[Token]) -> Result<(i64, &[Token]), ParseError>
    requires { (n : ℕ) × AreReadable n tokens.now }
    ensures value { Gives (λ x. (x.0, x.1.now)) result (turned_at tokens.now) }
    ensures one { IfOk result (λ x. length x.1.now + 1 ≡ length tokens.now) }
    ensures readable { (n : ℕ) → AreReadable n tokens.now → IfOk result (λ x. AreReadable n x.1.now) }
{
    let [first, rest @ ..] = tokens else {
        return Err(ParseError::Syntax { place: 0 });
    };
    match first.kind {
        TokenKind::Number(size) => Ok((-size, rest)),
        _ => Err(ParseError::Syntax { place: first.start }),
    }
}

/// The name of a `lock`, behind `as`.
#[tactic(auto, unfolding(crate::specs::Reading::held_at))]
pub(crate) fn held_at(tokens: &[Token]) -> Result<(u32, &[Token]), ParseError>
    ensures value { Gives (λ x. (x.0, x.1.now)) result (held_at tokens.now) }
    ensures two { IfOk result (λ x. length x.1.now + 2 ≡ length tokens.now) }
    ensures readable { (n : ℕ) → AreReadable n tokens.now → IfOk result (λ x. (x.0 < n) × AreReadable n x.1.now) }
{
    let rest = expect(tokens, Terminal::As)?;
    name_at(rest)
}

/// The mark between two operands.
#[tactic(auto, unfolding(crate::specs::Reading::op_at))]
pub(crate) fn op_at(tokens: &[Token]) -> Result<(Op, &[Token]), ParseError>
    ensures value { Gives (λ x. (x.0, x.1.now)) result (op_at tokens.now) }
    ensures one { IfOk result (λ x. length x.1.now + 1 ≡ length tokens.now) }
    ensures readable { (n : ℕ) → AreReadable n tokens.now → IfOk result (λ x. AreReadable n x.1.now) }
{
    let [first, rest @ ..] = tokens else {
        return Err(ParseError::Syntax { place: 0 });
    };
    match first.kind {
        TokenKind::Plus => Ok((Op::Add, rest)),
        TokenKind::Minus => Ok((Op::Sub, rest)),
        TokenKind::Star => Ok((Op::Mul, rest)),
        _ => Err(ParseError::Syntax { place: first.start }),
    }
}

/// Whether another name comes behind a captured one.
#[tactic(auto, unfolding(crate::specs::Reading::comma_at))]
pub(crate) fn comma_at(tokens: &[Token]) -> Result<(bool, &[Token]), ParseError>
    ensures value { Gives (λ x. (x.0, x.1.now)) result (comma_at tokens.now) }
    ensures one { IfOk result (λ x. length x.1.now + 1 ≡ length tokens.now) }
    ensures readable { (n : ℕ) → AreReadable n tokens.now → IfOk result (λ x. AreReadable n x.1.now) }
{
    let [first, rest @ ..] = tokens else {
        return Err(ParseError::Syntax { place: 0 });
    };
    match first.kind {
        TokenKind::Comma => Ok((true, rest)),
        TokenKind::CloseParen => Ok((false, rest)),
        _ => Err(ParseError::Syntax { place: first.start }),
    }
}

/// The fault where no level is left.
#[tactic(auto, unfolding(crate::specs::Reading::deep_at))]
pub(crate) fn deep_at(tokens: &[Token], is_item: bool) -> ParseError
    ensures { result ≡ deep_at is_item tokens.now }
{
    let [first, ..] = tokens else {
        return ParseError::Syntax { place: 0 };
    };
    let place = first.start;
    match first.kind {
        TokenKind::LetWord if is_item => ParseError::TooDeep { place },
        TokenKind::OpenBrace
        | TokenKind::Name(_)
        | TokenKind::Star
        | TokenKind::BoxWord
        | TokenKind::PrintWord
        | TokenKind::Number(_)
        | TokenKind::Minus
        | TokenKind::OpenParen
        | TokenKind::Amp
        | TokenKind::JoinWord
        | TokenKind::MutexWord
        | TokenKind::DupWord
        | TokenKind::LockWord
        | TokenKind::SpawnWord
        | TokenKind::ParWord => ParseError::TooDeep { place },
        _ => ParseError::Syntax { place },
    }
}

#[tactic(auto, unfolding(crate::specs::Reading::next_at))]
pub(crate) fn next_at(tokens: &[Token]) -> Result<(Next, &[Token]), ParseError>
    ensures value { Gives (λ x. (x.0, x.1.now)) result (next_at tokens.now) }
    ensures fewer { IfOk result (λ x. length x.1.now + used x.0 ≡ length tokens.now) }
    ensures readable { (n : ℕ) → AreReadable n tokens.now → IfOk result (λ x. AreReadable n x.1.now) }
{
    let [first, rest @ ..] = tokens else {
        return Err(ParseError::Syntax { place: 0 });
    };
    match first.kind {
        TokenKind::CloseBrace => Ok((Next::Close, rest)),
        TokenKind::Semicolon => match rest {
            [second, after @ ..] if matches!(second.kind, TokenKind::CloseBrace) => {
                Ok((Next::LastUnit(second.start), after))
            }
            _ => Ok((Next::More, rest)),
        },
        _ => Err(ParseError::Syntax { place: first.start }),
    }
}

/// That the end comes, and nothing more.
#[tactic(auto, unfolding(crate::specs::Reading::ended_at))]
pub(crate) fn ended_at(tokens: &[Token]) -> Result<(), ParseError>
    ensures { (t : Term) → Gives (λ _. t) result (ended_at tokens.now t) }
{
    match tokens {
        [] => Err(ParseError::Syntax { place: 0 }),
        [last] if matches!(last.kind, TokenKind::End) => Ok(()),
        [last, more, ..] if matches!(last.kind, TokenKind::End) => {
            Err(ParseError::Syntax { place: more.start })
        }
        [first, ..] => Err(ParseError::Syntax { place: first.start }),
    }
}
