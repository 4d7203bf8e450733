//! Places, captured names, and the terms without a term inside.

ghost use Rattle.std.specs.Prelude.{◌≡◌, ℕ, suc, ◌+◌, ◌*◌, ◌<◌, ◌≤◌, length, IfOk, IfErr};
ghost use Rattle.fr_terms.specs.Terms.{unit_t};
ghost use Rattle.fr_syntax.specs.Arena.{Arena};
ghost use Rattle.fr_syntax.specs.Meanings.{meanings, meaning_at, as_capture, term_at, place_at, captures_at as captures_of, term_s, place_s, capture_s, all_need};
ghost use Rattle.fr_grammar.specs.Growth.{IsGrown, AreGrown};
ghost use Rattle.fr_syntax.specs.TokenList.{AreReadable};
ghost use Rattle.fr_syntax.specs.Bounds.{most_numbered};
ghost use Rattle.fr_grammar.specs.Reading.{Gives, place_of, leaf_at, borrow_at, spot_at, capture_at, capture_next, captured_at, list_at, captures_at};

use crate::fault::ParseError;
use crate::marks::{Terminal, comma_at, expect, name_at, place_of, stars_of, turned_at};
use fr_syntax::{Nodes, Term, Token, TokenKind, Tree};
use std::alloc::Global;

/// The constant unit.
#[tactic(auto, using(crate::proofs::GrowthLemmas::grown_leaf))]
pub(crate) fn unit(tree: &mut Tree, place: u32) -> Result<u32, ParseError>
    requires { length (meanings tree.old) < most_numbered }
    ensures value { IfOk result (λ n. term_at (meanings tree.new) n ≡ unit_t place) }
    ensures node { IfOk result (λ n. IsGrown term_s tree.old tree.new n) }
    ensures one { IfOk result (λ n. length (meanings tree.new) ≡ length (meanings tree.old) + 1) }
    ensures err { IfErr result (λ e. e ≡ ParseError.NoMemory) }
{
    Ok(tree.add(Term::Unit, place)?)
}

/// A number, a borrow, or a mutex value more.
#[tactic(auto, using(crate::proofs::GrowthLemmas::grown_leaf), unfolding(crate::specs::Reading::leaf_at))]
pub(crate) fn leaf<'a>(
    tree: &mut Tree,
    tokens: &'a [Token],
) -> Result<(u32, &'a [Token]), ParseError>
    requires room { length (meanings tree.old) + 2 * length tokens.now < most_numbered }
    requires readable { AreReadable (length tree.old.names) tokens.now }
    ensures value { Gives (λ x. (term_at (meanings tree.new) x.0, x.1.now)) result (leaf_at tree.old.names tokens.now) }
    ensures node { IfOk result (λ x. IsGrown term_s tree.old tree.new x.0) }
    ensures room { IfOk result (λ x. length (meanings tree.new) + 2 * length x.1.now ≤ length (meanings tree.old) + 2 * length tokens.now) }
    ensures fewer { IfOk result (λ x. length x.1.now < length tokens.now) }
    ensures readable { IfOk result (λ x. AreReadable (length tree.old.names) x.1.now) }
{
    let [first, rest @ ..] = tokens else {
        return Err(ParseError::Syntax { place: 0 });
    };
    let place = first.start;
    match first.kind {
        TokenKind::Number(value) => Ok((tree.add(Term::Number(value), place)?, rest)),
        TokenKind::Minus => {
            let (value, rest) = turned_at(rest)?;
            Ok((tree.add(Term::Number(value), place)?, rest))
        }
        TokenKind::DupWord => {
            let (of, rest) = spot(tree, rest)?;
            Ok((tree.add(Term::Dup(of), place)?, rest))
        }
        TokenKind::Amp => borrow(tree, place, rest),
        _ => Err(ParseError::Syntax { place }),
    }
}

// A borrow, behind its mark.
#[tactic(auto, unfolding(crate::specs::Reading::borrow_at))]
fn borrow<'a>(
    tree: &mut Tree,
    place: u32,
    tokens: &'a [Token],
) -> Result<(u32, &'a [Token]), ParseError>
    requires room { length (meanings tree.old) + 2 * length tokens.now + 2 < most_numbered }
    requires readable { AreReadable (length tree.old.names) tokens.now }
    ensures value { Gives (λ x. (term_at (meanings tree.new) x.0, x.1.now)) result (borrow_at tree.old.names place tokens.now) }
    ensures node { IfOk result (λ x. IsGrown term_s tree.old tree.new x.0) }
    ensures room { IfOk result (λ x. length (meanings tree.new) + 2 * length x.1.now ≤ length (meanings tree.old) + 2 * length tokens.now + 2) }
    ensures fewer { IfOk result (λ x. length x.1.now < length tokens.now) }
    ensures readable { IfOk result (λ x. AreReadable (length tree.old.names) x.1.now) }
{
    let [first, rest @ ..] = tokens else {
        return Err(ParseError::Syntax { place: 0 });
    };
    match first.kind {
        TokenKind::MutWord => {
            let (of, rest) = spot(tree, rest)?;
            Ok((tree.add(Term::BorrowMut(of), place)?, rest))
        }
        _ => {
            let (of, rest) = spot(tree, tokens)?;
            Ok((tree.add(Term::Borrow(of), place)?, rest))
        }
    }
}

/// A place, as a node.
#[tactic(auto, using(crate::proofs::GrowthLemmas::grown_leaf), unfolding(crate::specs::Reading::spot_at))]
pub(crate) fn spot<'a>(
    tree: &mut Tree,
    tokens: &'a [Token],
) -> Result<(u32, &'a [Token]), ParseError>
    requires room { length (meanings tree.old) + 2 * length tokens.now < most_numbered }
    requires readable { AreReadable (length tree.old.names) tokens.now }
    ensures value { Gives (λ x. (place_at (meanings tree.new) x.0, x.1.now)) result (spot_at tree.old.names tokens.now) }
    ensures at { IfOk result (λ x. (place_at (meanings tree.new) x.0).at ≡ place_of tokens.now) }
    ensures node { IfOk result (λ x. IsGrown place_s tree.old tree.new x.0) }
    ensures room { IfOk result (λ x. length (meanings tree.new) + 2 * length x.1.now + 1 ≤ length (meanings tree.old) + 2 * length tokens.now) }
    ensures fewer { IfOk result (λ x. length x.1.now < length tokens.now) }
    ensures readable { IfOk result (λ x. AreReadable (length tree.old.names) x.1.now) }
{
    let stars = stars_of(tokens);
    if stars > 8 {
        return Err(ParseError::TooDeep {
            place: place_of(&tokens[8..]),
        });
    }
    let (name, rest) = name_at(&tokens[stars..])?;
    let node = tree.add(Term::Place(name, stars as u8), place_of(tokens))?;
    Ok((node, rest))
}

// A captured name, and whether another comes.
#[tactic(auto, using(crate::proofs::GrowthLemmas::grown_leaf), unfolding(crate::specs::Reading::capture_at, crate::specs::Reading::capture_next))]
fn capture<'a>(tree: &mut Tree, tokens: &'a [Token]) -> Result<(u32, bool, &'a [Token]), ParseError>
    requires room { length (meanings tree.old) + 2 * length tokens.now < most_numbered }
    requires readable { AreReadable (length tree.old.names) tokens.now }
    ensures value { Gives (λ x. (as_capture (meaning_at (meanings tree.new) x.0).what, x.1, x.2.now)) result (capture_next tree.old.names tokens.now) }
    ensures node { IfOk result (λ x. IsGrown capture_s tree.old tree.new x.0) }
    ensures room { IfOk result (λ x. length (meanings tree.new) + 2 * length x.2.now ≤ length (meanings tree.old) + 2 * length tokens.now) }
    ensures fewer { IfOk result (λ x. length x.2.now < length tokens.now) }
    ensures readable { IfOk result (λ x. AreReadable (length tree.old.names) x.2.now) }
{
    let (name, rest) = name_at(tokens)?;
    let node = tree.add(Term::Capture(name), place_of(tokens))?;
    let (more, rest) = comma_at(rest)?;
    Ok((node, more, rest))
}

// The names of a capture list that has some.
fn captured<'a>(
    alloc: Global,
    tree: &mut Tree,
    tokens: &'a [Token],
) -> Result<(Nodes, &'a [Token]), ParseError>
    requires room { length (meanings tree.old) + 2 * length tokens.now < most_numbered }
    requires readable { AreReadable (length tree.old.names) tokens.now }
    ensures value { Gives (λ x. (captures_of (meanings tree.new) x.0.items, x.1.now)) result (captured_at tree.old.names (suc (length tokens.now)) tokens.now) }
    ensures nodes { IfOk result (λ x. AreGrown tree.old tree.new (all_need capture_s x.0.items)) }
    ensures room { IfOk result (λ x. length (meanings tree.new) + 2 * length x.1.now ≤ length (meanings tree.old) + 2 * length tokens.now) }
    ensures fewer { IfOk result (λ x. length x.1.now < length tokens.now) }
    ensures readable { IfOk result (λ x. AreReadable (length tree.old.names) x.1.now) }
{
    let mut captures = Nodes::new(alloc);
    let mut rest = tokens;
    'each: loop {
        let (node, more, after) = capture(tree, rest)?;
        captures.push(node)?;
        rest = after;
        if !more {
            return Ok((captures, rest));
        }
    }
}

// A capture list, behind its opening mark.
#[tactic(auto, unfolding(crate::specs::Reading::list_at))]
fn list<'a>(
    alloc: Global,
    tree: &mut Tree,
    tokens: &'a [Token],
) -> Result<(Nodes, &'a [Token]), ParseError>
    requires room { length (meanings tree.old) + 2 * length tokens.now < most_numbered }
    requires readable { AreReadable (length tree.old.names) tokens.now }
    ensures value { Gives (λ x. (captures_of (meanings tree.new) x.0.items, x.1.now)) result (list_at tree.old.names tokens.now) }
    ensures nodes { IfOk result (λ x. AreGrown tree.old tree.new (all_need capture_s x.0.items)) }
    ensures room { IfOk result (λ x. length (meanings tree.new) + 2 * length x.1.now ≤ length (meanings tree.old) + 2 * length tokens.now) }
    ensures fewer { IfOk result (λ x. length x.1.now < length tokens.now) }
    ensures readable { IfOk result (λ x. AreReadable (length tree.old.names) x.1.now) }
{
    let [first, rest @ ..] = tokens else {
        return Err(ParseError::Syntax { place: 0 });
    };
    match first.kind {
        TokenKind::CloseParen => Ok((Nodes::new(alloc), rest)),
        _ => captured(alloc, tree, tokens),
    }
}

/// A capture list with its marks.
#[tactic(auto, unfolding(crate::specs::Reading::captures_at))]
pub(crate) fn captures<'a>(
    alloc: Global,
    tree: &mut Tree,
    tokens: &'a [Token],
) -> Result<(Nodes, &'a [Token]), ParseError>
    requires room { length (meanings tree.old) + 2 * length tokens.now < most_numbered }
    requires readable { AreReadable (length tree.old.names) tokens.now }
    ensures value { Gives (λ x. (captures_of (meanings tree.new) x.0.items, x.1.now)) result (captures_at tree.old.names tokens.now) }
    ensures nodes { IfOk result (λ x. AreGrown tree.old tree.new (all_need capture_s x.0.items)) }
    ensures room { IfOk result (λ x. length (meanings tree.new) + 2 * length x.1.now + 2 ≤ length (meanings tree.old) + 2 * length tokens.now) }
    ensures fewer { IfOk result (λ x. length x.1.now < length tokens.now) }
    ensures readable { IfOk result (λ x. AreReadable (length tree.old.names) x.1.now) }
{
    let rest = expect(tokens, Terminal::Open)?;
    list(alloc, tree, rest)
}
