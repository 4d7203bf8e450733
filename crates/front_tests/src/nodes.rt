//! Trees: the parts of a term stand before it, and each knows its place.

use fr_parse::parse;
use fr_syntax::{Nodes, Term, Tree, tokens};
use std::process::Abort;
use std::test::Fail;

// By node its place, its form and three numbers: its value, its name and its stars, or its parts (of a block how many, the second and the fourth).
type Seen = (u32, char, i64, i64, i64);

const PROGRAM: [Seen; 11] = [
    (18, '1', 1, 0, 0),
    (14, 'b', 0, 0, 0),
    (2, 'l', 0, 1, 0),
    (21, '*', 0, 1, 0),
    (26, '1', -2, 0, 0),
    (21, '=', 3, 4, 0),
    (36, '*', 0, 1, 0),
    (36, 'r', 6, 0, 0),
    (30, 'p', 7, 0, 0),
    (40, '(', 0, 0, 0),
    (0, '{', 4, 5, 9),
];

const CONSTANTS: [Seen; 3] = [
    (2, '(', 0, 0, 0),
    (6, '1', 0, 0, 0),
    (10, '1', -9_223_372_036_854_775_807, 0, 0),
];

// How many items a block has, or -1 where that is no number of 63 bits.
fn count(items: &Nodes) -> i64 {
    match i64::try_from(items.len()) {
        Ok(count) => count,
        Err(_) => -1,
    }
}

// An item of a block, or -1.
fn item(items: &Nodes, at: u64) -> i64 {
    match items.at(at) {
        Some(no) => i64::from(*no),
        None => -1,
    }
}

// The form of a term, with three numbers.
fn form(term: &Term) -> (char, i64, i64, i64) {
    match term {
        Term::Unit => ('(', 0, 0, 0),
        Term::Number(value) => ('1', *value, 0, 0),
        Term::Box(inner) => ('b', i64::from(*inner), 0, 0),
        Term::Let(name, value) => ('l', i64::from(*name), i64::from(*value), 0),
        Term::Place(name, stars) => ('*', i64::from(*name), i64::from(*stars), 0),
        Term::Assign(place, value) => ('=', i64::from(*place), i64::from(*value), 0),
        Term::Read(place) => ('r', i64::from(*place), 0, 0),
        Term::Print(value) => ('p', i64::from(*value), 0, 0),
        Term::Block(items) => ('{', count(items), item(items, 1), item(items, 3)),
        _ => ('?', 0, 0, 0),
    }
}

// The first nodes of a tree are these.
fn begins_with<R: Abort>(rt: &R, tree: &Tree, nodes: &[Seen]) {
    let mut no = 0u32;
    for (place, sign, first, second, third) in nodes {
        match tree.node(no) {
            Some(node) => {
                assert_eq!(rt; node.place, *place, "at {no}");
                assert_eq!(rt;
                    form(&node.term),
                    (*sign, *first, *second, *third),
                    "at {no}"
                );
            }
            None => panic!(rt; "no node"),
        }
        no = no.saturating_add(1);
    }
}

#[test]
fn nodes(rt: HostRuntime) -> Result<(), Fail> {
    let list = tokens(rt.alloc(), b"{ let mut x = box 1; *x = -2; print *x; }")?;
    let tree = parse(rt.alloc(), &list)?;
    assert_eq!(rt; tree.len(), 11);
    assert_eq!(rt; tree.name(0), Some("x"));
    assert_eq!(rt; tree.name(1), None);
    begins_with(&rt, &tree, &PROGRAM);
    let list = tokens(rt.alloc(), b"{ (); -0; - 9223372036854775807 }")?;
    let tree = parse(rt.alloc(), &list)?;
    assert_eq!(rt; tree.len(), 4);
    begins_with(&rt, &tree, &CONSTANTS);
    Ok(())
}
