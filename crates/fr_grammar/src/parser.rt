//! Terms, token by token.

ghost use Rattle.std.specs.Prelude.{◌≡◌, ℕ, suc, ◌+◌, ◌*◌, ◌<◌, ◌≤◌, true, false, length, IfOk};
ghost use Rattle.fr_syntax.specs.Arena.{Arena};
ghost use Rattle.fr_syntax.specs.Meanings.{meanings, term_at, place_at, items_at as terms_of, captures_at as captures_of, term_s, place_s, all_need};
ghost use Rattle.fr_grammar.specs.Growth.{IsGrown, AreGrown, branch_parts};
ghost use Rattle.fr_syntax.specs.TokenList.{AreReadable};
ghost use Rattle.fr_syntax.specs.Bounds.{most_numbered};
ghost use Rattle.fr_grammar.specs.Reading.{Gives, any_at, items_at, block_at, rest_at, placed_at, item_next, inner_at, arith_at, body_at, branch_at, spawn_at, par_at, lock_at};

use crate::fault::ParseError;
use crate::leaves::{captures, leaf, spot, unit};
use crate::marks::{Next, Terminal, bound_at, deep_at, expect, held_at, next_at, op_at, place_of};
use fr_base::NoMemory;
use fr_syntax::{Nodes, Term, Token, TokenKind, Tree};
use std::alloc::Global;

/// A term with so many levels left, as a node behind those of its parts.
#[cycle(parser)]
#[tactic(auto, unfolding(crate::specs::Reading::any_at))]
pub(crate) fn term<'a>(
    alloc: Global,
    tree: &mut Tree,
    depth: u32,
    tokens: &'a [Token],
) -> Result<(u32, &'a [Token]), ParseError>
    requires room { length (meanings tree.old) + 2 * length tokens.now < most_numbered }
    requires readable { AreReadable (length tree.old.names) tokens.now }
    ensures value { Gives (λ x. (term_at (meanings tree.new) x.0, x.1.now)) result (any_at tree.old.names depth false tokens.now) }
    ensures node { IfOk result (λ x. IsGrown term_s tree.old tree.new x.0) }
    ensures room { IfOk result (λ x. length (meanings tree.new) + 2 * length x.1.now ≤ length (meanings tree.old) + 2 * length tokens.now) }
    ensures fewer { IfOk result (λ x. length x.1.now < length tokens.now) }
    ensures readable { IfOk result (λ x. AreReadable (length tree.old.names) x.1.now) }
{
    if depth == 0 {
        return Err(deep_at(tokens, false));
    }
    let [first, rest @ ..] = tokens else {
        return Err(ParseError::Syntax { place: 0 });
    };
    let place = first.start;
    match first.kind {
        TokenKind::OpenBrace => block(alloc, tree, depth - 1, place, rest),
        TokenKind::BoxWord => {
            let (value, rest) = term(alloc, tree, depth - 1, rest)?;
            Ok((tree.add(Term::Box(value), place)?, rest))
        }
        TokenKind::PrintWord => {
            let (value, rest) = term(alloc, tree, depth - 1, rest)?;
            Ok((tree.add(Term::Print(value), place)?, rest))
        }
        TokenKind::JoinWord => {
            let (task, rest) = term(alloc, tree, depth - 1, rest)?;
            Ok((tree.add(Term::Join(task), place)?, rest))
        }
        TokenKind::MutexWord => {
            let (value, rest) = term(alloc, tree, depth - 1, rest)?;
            Ok((tree.add(Term::Mutex(value), place)?, rest))
        }
        TokenKind::Name(_) | TokenKind::Star => placed(alloc, tree, depth - 1, tokens),
        TokenKind::OpenParen => inner(alloc, tree, depth - 1, place, rest),
        TokenKind::SpawnWord => spawn(alloc, tree, depth - 1, place, rest),
        TokenKind::ParWord => par(alloc, tree, depth - 1, place, rest),
        TokenKind::LockWord => lock(alloc, tree, depth - 1, place, rest),
        _ => leaf(tree, tokens),
    }
}

// An assignment or a read, from its place on.
#[cycle(parser)]
#[tactic(auto, unfolding(crate::specs::Reading::placed_at))]
fn placed<'a>(
    alloc: Global,
    tree: &mut Tree,
    depth: u32,
    tokens: &'a [Token],
) -> Result<(u32, &'a [Token]), ParseError>
    requires room { length (meanings tree.old) + 2 * length tokens.now < most_numbered }
    requires readable { AreReadable (length tree.old.names) tokens.now }
    ensures value { Gives (λ x. (term_at (meanings tree.new) x.0, x.1.now)) result (placed_at tree.old.names (any_at tree.old.names depth false) tokens.now) }
    ensures node { IfOk result (λ x. IsGrown term_s tree.old tree.new x.0) }
    ensures room { IfOk result (λ x. length (meanings tree.new) + 2 * length x.1.now ≤ length (meanings tree.old) + 2 * length tokens.now) }
    ensures fewer { IfOk result (λ x. length x.1.now < length tokens.now) }
    ensures readable { IfOk result (λ x. AreReadable (length tree.old.names) x.1.now) }
{
    let place = place_of(tokens);
    let (to, rest) = spot(tree, tokens)?;
    after_spot(alloc, tree, depth, to, place, rest)
}

// A read of the place at this node, or an assignment.
#[cycle(parser)]
#[tactic(auto, unfolding(crate::specs::Reading::rest_at))]
fn after_spot<'a>(
    alloc: Global,
    tree: &mut Tree,
    depth: u32,
    to: u32,
    place: u32,
    tokens: &'a [Token],
) -> Result<(u32, &'a [Token]), ParseError>
    requires here { (start : Arena) × IsGrown place_s start tree.old to }
    requires place { (place_at (meanings tree.old) to).at ≡ place }
    requires room { length (meanings tree.old) + 2 * length tokens.now + 1 < most_numbered }
    requires readable { AreReadable (length tree.old.names) tokens.now }
    ensures value { Gives (λ x. (term_at (meanings tree.new) x.0, x.1.now)) result (rest_at (any_at tree.old.names depth false) (place_at (meanings tree.old) to) tokens.now) }
    ensures node { IfOk result (λ x. (start : Arena) → IsGrown place_s start tree.old to → IsGrown term_s start tree.new x.0) }
    ensures room { IfOk result (λ x. length (meanings tree.new) + 2 * length x.1.now ≤ length (meanings tree.old) + 2 * length tokens.now + 1) }
    ensures fewer { IfOk result (λ x. length x.1.now ≤ length tokens.now) }
    ensures readable { IfOk result (λ x. AreReadable (length tree.old.names) x.1.now) }
{
    match tokens {
        [first, rest @ ..] if matches!(first.kind, TokenKind::Equals) => {
            let (value, rest) = term(alloc, tree, depth, rest)?;
            Ok((tree.add(Term::Assign(to, value), place)?, rest))
        }
        _ => Ok((tree.add(Term::Read(to), place)?, tokens)),
    }
}

// A block behind its opening mark.
#[cycle(parser)]
#[tactic(auto, unfolding(crate::specs::Reading::block_at))]
fn block<'a>(
    alloc: Global,
    tree: &mut Tree,
    depth: u32,
    place: u32,
    tokens: &'a [Token],
) -> Result<(u32, &'a [Token]), ParseError>
    requires room { length (meanings tree.old) + 2 * length tokens.now + 2 < most_numbered }
    requires readable { AreReadable (length tree.old.names) tokens.now }
    ensures value { Gives (λ x. (term_at (meanings tree.new) x.0, x.1.now)) result (block_at (any_at tree.old.names depth true) place tokens.now) }
    ensures node { IfOk result (λ x. IsGrown term_s tree.old tree.new x.0) }
    ensures room { IfOk result (λ x. length (meanings tree.new) + 2 * length x.1.now ≤ length (meanings tree.old) + 2 * length tokens.now + 1) }
    ensures fewer { IfOk result (λ x. length x.1.now ≤ length tokens.now) }
    ensures readable { IfOk result (λ x. AreReadable (length tree.old.names) x.1.now) }
{
    match tokens {
        [first, rest @ ..] if matches!(first.kind, TokenKind::CloseBrace) => {
            let none = Nodes::new(alloc);
            Ok((tree.add(Term::Block(none), place)?, rest))
        }
        _ => {
            let (items, rest) = items(alloc, tree, depth, tokens)?;
            Ok((tree.add(Term::Block(items), place)?, rest))
        }
    }
}

// The items of a block that has some.
#[cycle(parser)]
fn items<'a>(
    alloc: Global,
    tree: &mut Tree,
    depth: u32,
    tokens: &'a [Token],
) -> Result<(Nodes, &'a [Token]), ParseError>
    requires room { length (meanings tree.old) + 2 * length tokens.now + 2 < most_numbered }
    requires readable { AreReadable (length tree.old.names) tokens.now }
    ensures value { Gives (λ x. (terms_of (meanings tree.new) x.0.items, x.1.now)) result (items_at (any_at tree.old.names depth true) (suc (length tokens.now)) tokens.now) }
    ensures nodes { IfOk result (λ x. AreGrown tree.old tree.new (all_need term_s x.0.items)) }
    ensures room { IfOk result (λ x. length (meanings tree.new) + 2 * length x.1.now ≤ length (meanings tree.old) + 2 * length tokens.now) }
    ensures fewer { IfOk result (λ x. length x.1.now < length tokens.now) }
    ensures readable { IfOk result (λ x. AreReadable (length tree.old.names) x.1.now) }
{
    let mut items = Nodes::new(alloc);
    let mut rest = tokens;
    'each: loop {
        let (first, next, after) = item_and_next(alloc, tree, depth, rest)?;
        items.push(first)?;
        rest = after;
        match next {
            Next::Close => return Ok((items, rest)),
            Next::LastUnit(place) => {
                let last = unit(tree, place)?;
                items.push(last)?;
                return Ok((items, rest));
            }
            Next::More => {}
        }
    }
}

// An item, and what stands behind it.
#[cycle(parser)]
#[tactic(auto, unfolding(crate::specs::Reading::item_next))]
fn item_and_next<'a>(
    alloc: Global,
    tree: &mut Tree,
    depth: u32,
    tokens: &'a [Token],
) -> Result<(u32, Next, &'a [Token]), ParseError>
    requires room { length (meanings tree.old) + 2 * length tokens.now < most_numbered }
    requires readable { AreReadable (length tree.old.names) tokens.now }
    ensures value { Gives (λ x. (term_at (meanings tree.new) x.0, x.1, x.2.now)) result (item_next (any_at tree.old.names depth true) tokens.now) }
    ensures node { IfOk result (λ x. IsGrown term_s tree.old tree.new x.0) }
    ensures room { IfOk result (λ x. length (meanings tree.new) + 2 * length x.2.now + 2 ≤ length (meanings tree.old) + 2 * length tokens.now) }
    ensures fewer { IfOk result (λ x. length x.2.now + 1 < length tokens.now) }
    ensures readable { IfOk result (λ x. AreReadable (length tree.old.names) x.2.now) }
{
    let (node, rest) = item(alloc, tree, depth, tokens)?;
    let (next, rest) = next_at(rest)?;
    Ok((node, next, rest))
}

// An item of a block with so many levels left.
#[cycle(parser)]
#[tactic(auto, unfolding(crate::specs::Reading::any_at))]
fn item<'a>(
    alloc: Global,
    tree: &mut Tree,
    depth: u32,
    tokens: &'a [Token],
) -> Result<(u32, &'a [Token]), ParseError>
    requires room { length (meanings tree.old) + 2 * length tokens.now < most_numbered }
    requires readable { AreReadable (length tree.old.names) tokens.now }
    ensures value { Gives (λ x. (term_at (meanings tree.new) x.0, x.1.now)) result (any_at tree.old.names depth true tokens.now) }
    ensures node { IfOk result (λ x. IsGrown term_s tree.old tree.new x.0) }
    ensures room { IfOk result (λ x. length (meanings tree.new) + 2 * length x.1.now ≤ length (meanings tree.old) + 2 * length tokens.now) }
    ensures fewer { IfOk result (λ x. length x.1.now < length tokens.now) }
    ensures readable { IfOk result (λ x. AreReadable (length tree.old.names) x.1.now) }
{
    if depth == 0 {
        return Err(deep_at(tokens, true));
    }
    let [first, rest @ ..] = tokens else {
        return Err(ParseError::Syntax { place: 0 });
    };
    match first.kind {
        TokenKind::LetWord => {
            let (name, rest) = bound_at(rest)?;
            let (value, rest) = term(alloc, tree, depth - 1, rest)?;
            Ok((tree.add(Term::Let(name, value), first.start)?, rest))
        }
        _ => term(alloc, tree, depth, tokens),
    }
}

// Behind `(`: the constant unit, or else arithmetic.
#[cycle(parser)]
#[tactic(auto, unfolding(crate::specs::Reading::inner_at))]
fn inner<'a>(
    alloc: Global,
    tree: &mut Tree,
    depth: u32,
    place: u32,
    tokens: &'a [Token],
) -> Result<(u32, &'a [Token]), ParseError>
    requires room { length (meanings tree.old) + 2 * length tokens.now + 2 < most_numbered }
    requires readable { AreReadable (length tree.old.names) tokens.now }
    ensures value { Gives (λ x. (term_at (meanings tree.new) x.0, x.1.now)) result (inner_at (any_at tree.old.names depth false) place tokens.now) }
    ensures node { IfOk result (λ x. IsGrown term_s tree.old tree.new x.0) }
    ensures room { IfOk result (λ x. length (meanings tree.new) + 2 * length x.1.now ≤ length (meanings tree.old) + 2 * length tokens.now + 2) }
    ensures fewer { IfOk result (λ x. length x.1.now < length tokens.now) }
    ensures readable { IfOk result (λ x. AreReadable (length tree.old.names) x.1.now) }
{
    match tokens {
        [first, rest @ ..] if matches!(first.kind, TokenKind::CloseParen) => {
            Ok((unit(tree, place)?, rest))
        }
        _ => arith(alloc, tree, depth, place, tokens),
    }
}

// A sum, difference or product, behind its opening mark.
#[cycle(parser)]
#[tactic(auto, unfolding(crate::specs::Reading::arith_at))]
fn arith<'a>(
    alloc: Global,
    tree: &mut Tree,
    depth: u32,
    place: u32,
    tokens: &'a [Token],
) -> Result<(u32, &'a [Token]), ParseError>
    requires room { length (meanings tree.old) + 2 * length tokens.now + 2 < most_numbered }
    requires readable { AreReadable (length tree.old.names) tokens.now }
    ensures value { Gives (λ x. (term_at (meanings tree.new) x.0, x.1.now)) result (arith_at (any_at tree.old.names depth false) place tokens.now) }
    ensures node { IfOk result (λ x. IsGrown term_s tree.old tree.new x.0) }
    ensures room { IfOk result (λ x. length (meanings tree.new) + 2 * length x.1.now ≤ length (meanings tree.old) + 2 * length tokens.now + 2) }
    ensures fewer { IfOk result (λ x. length x.1.now < length tokens.now) }
    ensures readable { IfOk result (λ x. AreReadable (length tree.old.names) x.1.now) }
{
    let (left, rest) = term(alloc, tree, depth, tokens)?;
    let (op, rest) = op_at(rest)?;
    let (right, rest) = term(alloc, tree, depth, rest)?;
    let rest = expect(rest, Terminal::Close)?;
    Ok((tree.add(Term::Arith(op, left, right), place)?, rest))
}

/// A term that is a block, with so many levels left.
#[cycle(parser)]
#[tactic(auto, unfolding(crate::specs::Reading::body_at))]
pub(crate) fn body<'a>(
    alloc: Global,
    tree: &mut Tree,
    depth: u32,
    tokens: &'a [Token],
) -> Result<(u32, &'a [Token]), ParseError>
    requires room { length (meanings tree.old) + 2 * length tokens.now < most_numbered }
    requires readable { AreReadable (length tree.old.names) tokens.now }
    ensures value { Gives (λ x. (term_at (meanings tree.new) x.0, x.1.now)) result (body_at (any_at tree.old.names depth false) tokens.now) }
    ensures node { IfOk result (λ x. IsGrown term_s tree.old tree.new x.0) }
    ensures room { IfOk result (λ x. length (meanings tree.new) + 2 * length x.1.now ≤ length (meanings tree.old) + 2 * length tokens.now) }
    ensures fewer { IfOk result (λ x. length x.1.now < length tokens.now) }
    ensures readable { IfOk result (λ x. AreReadable (length tree.old.names) x.1.now) }
{
    let [first, ..] = tokens else {
        return Err(ParseError::Syntax { place: 0 });
    };
    match first.kind {
        TokenKind::OpenBrace => term(alloc, tree, depth, tokens),
        _ => Err(ParseError::Syntax { place: first.start }),
    }
}

// What a new thread captures, and its body.
#[cycle(parser)]
#[tactic(auto, unfolding(crate::specs::Reading::branch_at))]
fn branch<'a>(
    alloc: Global,
    tree: &mut Tree,
    depth: u32,
    tokens: &'a [Token],
) -> Result<(Nodes, u32, &'a [Token]), ParseError>
    requires room { length (meanings tree.old) + 2 * length tokens.now < most_numbered }
    requires readable { AreReadable (length tree.old.names) tokens.now }
    ensures value { Gives (λ x. (captures_of (meanings tree.new) x.0.items, term_at (meanings tree.new) x.1, x.2.now)) result (branch_at tree.old.names (any_at tree.old.names depth false) tokens.now) }
    ensures nodes { IfOk result (λ x. AreGrown tree.old tree.new (branch_parts x.0.items x.1)) }
    ensures room { IfOk result (λ x. length (meanings tree.new) + 2 * length x.2.now ≤ length (meanings tree.old) + 2 * length tokens.now) }
    ensures fewer { IfOk result (λ x. length x.2.now < length tokens.now) }
    ensures readable { IfOk result (λ x. AreReadable (length tree.old.names) x.2.now) }
{
    let (captures, rest) = captures(alloc, tree, tokens)?;
    let (body, rest) = body(alloc, tree, depth, rest)?;
    Ok((captures, body, rest))
}

// One new thread, behind `spawn`.
#[cycle(parser)]
#[tactic(auto, unfolding(crate::specs::Reading::spawn_at))]
fn spawn<'a>(
    alloc: Global,
    tree: &mut Tree,
    depth: u32,
    place: u32,
    tokens: &'a [Token],
) -> Result<(u32, &'a [Token]), ParseError>
    requires room { length (meanings tree.old) + 2 * length tokens.now + 2 < most_numbered }
    requires readable { AreReadable (length tree.old.names) tokens.now }
    ensures value { Gives (λ x. (term_at (meanings tree.new) x.0, x.1.now)) result (spawn_at tree.old.names (any_at tree.old.names depth false) place tokens.now) }
    ensures node { IfOk result (λ x. IsGrown term_s tree.old tree.new x.0) }
    ensures room { IfOk result (λ x. length (meanings tree.new) + 2 * length x.1.now ≤ length (meanings tree.old) + 2 * length tokens.now + 2) }
    ensures fewer { IfOk result (λ x. length x.1.now < length tokens.now) }
    ensures readable { IfOk result (λ x. AreReadable (length tree.old.names) x.1.now) }
{
    let (captures, body, rest) = branch(alloc, tree, depth, tokens)?;
    Ok((tree.add(Term::Spawn(captures, body), place)?, rest))
}

// Nodes behind a pointer.
fn boxed(alloc: Global, nodes: Nodes) -> Result<Box<Nodes>, NoMemory>
    ensures { IfOk result (λ b. b.value ≡ nodes) }
{
    Ok(Box::new(alloc, nodes)?)
}

// Two new threads, behind `par`.
#[cycle(parser)]
#[tactic(auto, unfolding(crate::specs::Reading::par_at))]
fn par<'a>(
    alloc: Global,
    tree: &mut Tree,
    depth: u32,
    place: u32,
    tokens: &'a [Token],
) -> Result<(u32, &'a [Token]), ParseError>
    requires room { length (meanings tree.old) + 2 * length tokens.now + 2 < most_numbered }
    requires readable { AreReadable (length tree.old.names) tokens.now }
    ensures value { Gives (λ x. (term_at (meanings tree.new) x.0, x.1.now)) result (par_at tree.old.names (any_at tree.old.names depth false) place tokens.now) }
    ensures node { IfOk result (λ x. IsGrown term_s tree.old tree.new x.0) }
    ensures room { IfOk result (λ x. length (meanings tree.new) + 2 * length x.1.now ≤ length (meanings tree.old) + 2 * length tokens.now + 2) }
    ensures fewer { IfOk result (λ x. length x.1.now < length tokens.now) }
    ensures readable { IfOk result (λ x. AreReadable (length tree.old.names) x.1.now) }
{
    let (captures, body, rest) = branch(alloc, tree, depth, tokens)?;
    let (others, other, rest) = branch(alloc, tree, depth, rest)?;
    let ours = boxed(alloc, captures)?;
    let theirs = boxed(alloc, others)?;
    let term = Term::Par(ours, body, theirs, other);
    Ok((tree.add(term, place)?, rest))
}

// The content of a mutex under a name, behind `lock`.
#[cycle(parser)]
#[tactic(auto, unfolding(crate::specs::Reading::lock_at))]
fn lock<'a>(
    alloc: Global,
    tree: &mut Tree,
    depth: u32,
    place: u32,
    tokens: &'a [Token],
) -> Result<(u32, &'a [Token]), ParseError>
    requires room { length (meanings tree.old) + 2 * length tokens.now + 2 < most_numbered }
    requires readable { AreReadable (length tree.old.names) tokens.now }
    ensures value { Gives (λ x. (term_at (meanings tree.new) x.0, x.1.now)) result (lock_at tree.old.names (any_at tree.old.names depth false) place tokens.now) }
    ensures node { IfOk result (λ x. IsGrown term_s tree.old tree.new x.0) }
    ensures room { IfOk result (λ x. length (meanings tree.new) + 2 * length x.1.now ≤ length (meanings tree.old) + 2 * length tokens.now + 2) }
    ensures fewer { IfOk result (λ x. length x.1.now < length tokens.now) }
    ensures readable { IfOk result (λ x. AreReadable (length tree.old.names) x.1.now) }
{
    let (of, rest) = spot(tree, tokens)?;
    let (name, rest) = held_at(rest)?;
    let (body, rest) = body(alloc, tree, depth, rest)?;
    Ok((tree.add(Term::Lock(of, name, body), place)?, rest))
}
