//! The canonical text of a program.

ghost use Rattle.std.specs.Prelude.{◌≡◌, ◌<◌, ◌≤◌, [], ◌∷◌, ◌++◌, length, decimal, string_bytes, IfOk, OnOk};
ghost use Rattle.fr_terms.specs.Terms.{block_t, let_t, assign_t, borrow_mut_t, unit_t, arith_t, lock_t, IsBlock};
ghost use Rattle.fr_terms.specs.Limits.{IsWithinLimits};
ghost use Rattle.fr_syntax.specs.Arena.{text_of};
ghost use Rattle.fr_syntax.specs.Meanings.{meanings, meaning_at, term_at, place_at, items_at, captures_at, as_capture, sort_of, term_of, term_s, place_s, capture_s, need, all_need, AreBelow, IsTree};
ghost use Rattle.fr_grammar.specs.Growth.{branch_parts};
ghost use Rattle.fr_parse.specs.Canonical.{path_words, place_words, name_words, capture_words, number_words, words, item_words, op_word, canonical};
ghost use Rattle.fr_parse.specs.Written.{IsWritten, mark_before};

use fr_base::{NoMemory, Op};
use fr_syntax::{Nodes, Term, Tree};
use itoa::Buffer;
use std::alloc::Global;

// A token's text.
fn word(text: &mut String, word: &str) -> Result<(), NoMemory>
    ensures { OnOk result (IsWritten (string_bytes text.old) (word.now ∷ []) (string_bytes text.new)) }
{
    text.push_str(word)?;
    text.push_str(" ")?;
    Ok(())
}

// A mark before all but the first of a list.
fn mark_before(text: &mut String, place: u64, mark: &str) -> Result<(), NoMemory>
    ensures { OnOk result (IsWritten (string_bytes text.old) (mark_before place mark.now) (string_bytes text.new)) }
{
    if place > 0 {
        word(text, mark)?;
    }
    Ok(())
}

fn op_word(op: Op) -> &'static str
    ensures { result.now ≡ op_word op }
{
    match op {
        Op::Add => "+",
        Op::Sub => "-",
        Op::Mul => "*",
    }
}

// The digits of a size.
fn digits(text: &mut String, size: u64) -> Result<(), NoMemory>
    ensures { OnOk result (IsWritten (string_bytes text.old) (decimal size ∷ []) (string_bytes text.new)) }
{
    let mut buffer = Buffer::new();
    word(text, buffer.format(size))
}

fn number(text: &mut String, value: i64) -> Result<(), NoMemory>
    ensures { OnOk result (IsWritten (string_bytes text.old) (number_words value) (string_bytes text.new)) }
{
    let size = value.unsigned_abs();
    if value < 0 {
        word(text, "-")?;
        digits(text, size)
    } else {
        digits(text, size)
    }
}

fn name(tree: &Tree, number: u32, text: &mut String) -> Result<(), NoMemory>
    requires here { number < length tree.now.names }
    ensures { OnOk result (IsWritten (string_bytes text.old) (text_of tree.now.names number ∷ []) (string_bytes text.new)) }
{
    let Some(name) = tree.name(number) else {
        unreachable!()
    };
    word(text, name)
}

// A name under so many stars.
fn path(tree: &Tree, number: u32, stars: u8, text: &mut String) -> Result<(), NoMemory>
    requires here { number < length tree.now.names }
    ensures { OnOk result (IsWritten (string_bytes text.old) (path_words stars (text_of tree.now.names number)) (string_bytes text.new)) }
{
    'stars: for _ in 0..stars {
        word(text, "*")?;
    }
    name(tree, number, text)
}

// The place of a place node.
fn place(tree: &Tree, node: u32, text: &mut String) -> Result<(), NoMemory>
    requires here { node < length (meanings tree.now) }
    requires sort { sort_of (meaning_at (meanings tree.now) node).what ≡ place_s }
    ensures { OnOk result (IsWritten (string_bytes text.old) (place_words (place_at (meanings tree.now) node)) (string_bytes text.new)) }
{
    let Some(node) = tree.node(node) else {
        unreachable!()
    };
    let Term::Place(number, stars) = node.term else {
        unreachable!()
    };
    path(tree, number, stars, text)
}

// The name of a capture node.
fn capture(tree: &Tree, node: u32, text: &mut String) -> Result<(), NoMemory>
    requires here { node < length (meanings tree.now) }
    requires sort { sort_of (meaning_at (meanings tree.now) node).what ≡ capture_s }
    ensures { OnOk result (IsWritten (string_bytes text.old) ((as_capture (meaning_at (meanings tree.now) node).what).name ∷ []) (string_bytes text.new)) }
{
    let Some(node) = tree.node(node) else {
        unreachable!()
    };
    let Term::Capture(number) = node.term else {
        unreachable!()
    };
    name(tree, number, text)
}

// Captured names, without the marks around them.
fn captured(tree: &Tree, nodes: &Nodes, text: &mut String) -> Result<(), NoMemory>
    requires parts { AreBelow (meanings tree.now) (length (meanings tree.now)) (all_need capture_s nodes.now.items) }
    ensures { OnOk result (IsWritten (string_bytes text.old) (name_words (captures_at (meanings tree.now) nodes.now.items)) (string_bytes text.new)) }
{
    'captures: for next in 0..nodes.len() {
        let Some(node) = nodes.at(next) else {
            unreachable!()
        };
        mark_before(text, next, ",")?;
        capture(tree, *node, text)?;
    }
    Ok(())
}

// A capture list.
fn captures(tree: &Tree, nodes: &Nodes, text: &mut String) -> Result<(), NoMemory>
    requires parts { AreBelow (meanings tree.now) (length (meanings tree.now)) (all_need capture_s nodes.now.items) }
    ensures { OnOk result (IsWritten (string_bytes text.old) (capture_words (captures_at (meanings tree.now) nodes.now.items)) (string_bytes text.new)) }
{
    word(text, "(")?;
    captured(tree, nodes, text)?;
    word(text, ")")
}

// The constant unit.
fn unit(text: &mut String) -> Result<(), NoMemory>
    ensures { OnOk result (IsWritten (string_bytes text.old) (words (unit_t 0)) (string_bytes text.new)) }
{
    word(text, "(")?;
    word(text, ")")
}

// A place behind a word or a mark.
fn place_behind(tree: &Tree, mark: &str, node: u32, text: &mut String) -> Result<(), NoMemory>
    requires here { node < length (meanings tree.now) }
    requires sort { sort_of (meaning_at (meanings tree.now) node).what ≡ place_s }
    ensures { OnOk result (IsWritten (string_bytes text.old) (mark.now ∷ place_words (place_at (meanings tree.now) node)) (string_bytes text.new)) }
{
    word(text, mark)?;
    place(tree, node, text)
}

// A borrow that writes.
fn borrow_mut(tree: &Tree, node: u32, text: &mut String) -> Result<(), NoMemory>
    requires here { node < length (meanings tree.now) }
    requires sort { sort_of (meaning_at (meanings tree.now) node).what ≡ place_s }
    ensures { OnOk result (IsWritten (string_bytes text.old) (words (borrow_mut_t 0 (place_at (meanings tree.now) node))) (string_bytes text.new)) }
{
    word(text, "&")?;
    place_behind(tree, "mut", node, text)
}

// The term of a node.
#[cycle(print)]
fn term(tree: &Tree, at: u32, text: &mut String) -> Result<(), NoMemory>
    requires here { at < length (meanings tree.now) }
    requires sort { sort_of (meaning_at (meanings tree.now) at).what ≡ term_s }
    ensures { OnOk result (IsWritten (string_bytes text.old) (words (term_at (meanings tree.now) at)) (string_bytes text.new)) }
{
    let Some(node) = tree.node(at) else {
        unreachable!()
    };
    match &node.term {
        Term::Block(nodes) => block(tree, nodes, at, text),
        Term::Let(number, value) => binding(tree, *number, *value, text),
        Term::Assign(to, value) => assignment(tree, *to, *value, text),
        Term::Read(from) => place(tree, *from, text),
        Term::Borrow(of) => place_behind(tree, "&", *of, text),
        Term::BorrowMut(of) => borrow_mut(tree, *of, text),
        Term::Dup(of) => place_behind(tree, "dup", *of, text),
        Term::Number(value) => number(text, *value),
        Term::Unit => unit(text),
        Term::Box(value) => term_behind(tree, "box", *value, text),
        Term::Print(value) => term_behind(tree, "print", *value, text),
        Term::Join(task) => term_behind(tree, "join", *task, text),
        Term::Mutex(value) => term_behind(tree, "mutex", *value, text),
        Term::Arith(op, left, right) => arithmetic(tree, *op, *left, *right, at, text),
        Term::Spawn(nodes, body) => {
            word(text, "spawn")?;
            branch(tree, nodes, *body, at, text)
        }
        Term::Par(nodes, body, others, other) => {
            word(text, "par")?;
            branch(tree, nodes, *body, at, text)?;
            branch(tree, others, *other, at, text)
        }
        Term::Lock(of, number, body) => lock(tree, *of, *number, *body, text),
        Term::Place(_, _) | Term::Capture(_) => unreachable!(),
    }
}

// A block whose items stand before a node.
#[cycle(print)]
fn block(tree: &Tree, nodes: &Nodes, bound: u32, text: &mut String) -> Result<(), NoMemory>
    requires inside { bound ≤ length (meanings tree.now) }
    requires parts { AreBelow (meanings tree.now) bound (all_need term_s nodes.now.items) }
    ensures { OnOk result (IsWritten (string_bytes text.old) (words (block_t 0 (items_at (meanings tree.now) nodes.now.items))) (string_bytes text.new)) }
{
    word(text, "{")?;
    items(tree, nodes, bound, text)?;
    word(text, "}")
}

// The items of a block, which stand before a node.
#[cycle(print)]
fn items(tree: &Tree, nodes: &Nodes, bound: u32, text: &mut String) -> Result<(), NoMemory>
    requires inside { bound ≤ length (meanings tree.now) }
    requires parts { AreBelow (meanings tree.now) bound (all_need term_s nodes.now.items) }
    ensures { OnOk result (IsWritten (string_bytes text.old) (item_words (items_at (meanings tree.now) nodes.now.items)) (string_bytes text.new)) }
{
    'items: for next in 0..nodes.len() {
        let Some(item) = nodes.at(next) else {
            unreachable!()
        };
        mark_before(text, next, ";")?;
        term(tree, *item, text)?;
    }
    Ok(())
}

// A term behind a word or a mark.
#[cycle(print)]
fn term_behind(tree: &Tree, mark: &str, at: u32, text: &mut String) -> Result<(), NoMemory>
    requires here { at < length (meanings tree.now) }
    requires sort { sort_of (meaning_at (meanings tree.now) at).what ≡ term_s }
    ensures { OnOk result (IsWritten (string_bytes text.old) (mark.now ∷ words (term_at (meanings tree.now) at)) (string_bytes text.new)) }
{
    word(text, mark)?;
    term(tree, at, text)
}

// The declaration of a variable.
#[cycle(print)]
fn binding(tree: &Tree, number: u32, value: u32, text: &mut String) -> Result<(), NoMemory>
    requires name { number < length tree.now.names }
    requires here { value < length (meanings tree.now) }
    requires sort { sort_of (meaning_at (meanings tree.now) value).what ≡ term_s }
    ensures { OnOk result (IsWritten (string_bytes text.old) (words (let_t 0 (text_of tree.now.names number) (term_at (meanings tree.now) value))) (string_bytes text.new)) }
{
    word(text, "let")?;
    word(text, "mut")?;
    name(tree, number, text)?;
    term_behind(tree, "=", value, text)
}

// An assignment to the place of a place node.
#[cycle(print)]
fn assignment(tree: &Tree, to: u32, value: u32, text: &mut String) -> Result<(), NoMemory>
    requires place { to < length (meanings tree.now) }
    requires place_sort { sort_of (meaning_at (meanings tree.now) to).what ≡ place_s }
    requires here { value < length (meanings tree.now) }
    requires sort { sort_of (meaning_at (meanings tree.now) value).what ≡ term_s }
    ensures { OnOk result (IsWritten (string_bytes text.old) (words (assign_t 0 (place_at (meanings tree.now) to) (term_at (meanings tree.now) value))) (string_bytes text.new)) }
{
    place(tree, to, text)?;
    term_behind(tree, "=", value, text)
}

// A sum, difference or product; both sides stand before a node.
#[cycle(print)]
fn arithmetic(
    tree: &Tree,
    op: Op,
    left: u32,
    right: u32,
    bound: u32,
    text: &mut String,
) -> Result<(), NoMemory>
    requires inside { bound ≤ length (meanings tree.now) }
    requires parts { AreBelow (meanings tree.now) bound (need term_s left ∷ need term_s right ∷ []) }
    ensures { OnOk result (IsWritten (string_bytes text.old) (words (arith_t 0 op (term_at (meanings tree.now) left) (term_at (meanings tree.now) right))) (string_bytes text.new)) }
{
    word(text, "(")?;
    term(tree, left, text)?;
    term_behind(tree, op_word(op), right, text)?;
    word(text, ")")
}

// A capture list, and the body behind it; all of them stand before a node.
#[cycle(print)]
fn branch(
    tree: &Tree,
    nodes: &Nodes,
    body: u32,
    bound: u32,
    text: &mut String,
) -> Result<(), NoMemory>
    requires inside { bound ≤ length (meanings tree.now) }
    requires parts { AreBelow (meanings tree.now) bound (branch_parts nodes.now.items body) }
    ensures { OnOk result (IsWritten (string_bytes text.old) (capture_words (captures_at (meanings tree.now) nodes.now.items) ++ words (term_at (meanings tree.now) body)) (string_bytes text.new)) }
{
    captures(tree, nodes, text)?;
    term(tree, body, text)
}

// The content of a mutex under a name.
#[cycle(print)]
fn lock(tree: &Tree, of: u32, number: u32, body: u32, text: &mut String) -> Result<(), NoMemory>
    requires name { number < length tree.now.names }
    requires place { of < length (meanings tree.now) }
    requires place_sort { sort_of (meaning_at (meanings tree.now) of).what ≡ place_s }
    requires here { body < length (meanings tree.now) }
    requires sort { sort_of (meaning_at (meanings tree.now) body).what ≡ term_s }
    ensures { OnOk result (IsWritten (string_bytes text.old) (words (lock_t 0 (place_at (meanings tree.now) of) (text_of tree.now.names number) (term_at (meanings tree.now) body))) (string_bytes text.new)) }
{
    place_behind(tree, "lock", of, text)?;
    word(text, "as")?;
    name(tree, number, text)?;
    term(tree, body, text)
}

/// The canonical text of a program: its tokens in order, one space between two, and a newline behind the last. It takes time
/// in the length of the text, and stack in the depth of the program, which is at most 64.
pub fn print(alloc: Global, tree: &Tree) -> Result<String, NoMemory>
    requires tree { IsTree tree.now }
    requires block { IsBlock (term_of tree.now) }
    requires limits { IsWithinLimits (term_of tree.now) }
    ensures text { IfOk result (λ text. string_bytes text ≡ canonical (term_of tree.now)) }
{
    let root = tree.root();
    let Some(node) = tree.node(root) else {
        unreachable!()
    };
    let Term::Block(nodes) = &node.term else {
        unreachable!()
    };
    let mut text = String::new(alloc);
    word(&mut text, "{")?;
    items(tree, nodes, root, &mut text)?;
    text.push_str("}\n")?;
    Ok(text)
}
