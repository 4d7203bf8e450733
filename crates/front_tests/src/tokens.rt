//! Tokens on both sides of each limit, and a small tree.

ghost use Rattle.std.specs.Prelude.{◌≤◌, length};
ghost use Rattle.fr_syntax.specs.Bounds.{most_bytes};

use fr_base::NoMemory;
use fr_syntax::{Node, Nodes, Term, Tokens, Tree, tokens};
use std::alloc::Global;
use std::test::Fail;

// Sources and their tokens, each with the place where it begins and the one behind it; or the first text that spells none.
const TOKENS: &str = "\
|End 0 0
let mut _a1=box 007;|LetWord 0 3, MutWord 4 7, Name(0) 8 11, Equals 11 12, BoxWord 12 15, Number(7) 16 19, Semicolon 19 20, End 20 20
y x y lets 9z**y|Name(0) 0 1, Name(1) 2 3, Name(0) 4 5, Name(2) 6 10, Number(9) 11 12, Name(3) 12 13, Star 13 14, Star 14 15, Name(0) 15 16, End 16 16
9223372036854775807 00000000000000000000000000000000000000001|Number(9223372036854775807) 0 19, Number(1) 20 61, End 61 61
abcdefghijklmnopqrstuvwxyz_01234|Name(0) 0 32, End 32 32
if else while fn|IfWord 0 2, ElseWord 3 7, WhileWord 8 13, FnWord 14 16, End 16 16
x # 9223372036854775808|BadByte { place: 2 }
{ 9223372036854775808 #|NumberTooLarge { place: 2 }
1 99999999999999999999999|NumberTooLarge { place: 2 }
abcdefghijklmnopqrstuvwxyz_012345|NameTooLong { place: 0 }
a\u{e4}|BadByte { place: 1 }
a\0|BadByte { place: 1 }
";

// Blanks of each kind, which spell no token but the end.
const BLANKS: &str = " \t\r\n";

// The tokens with their places, in order.
fn token_texts(alloc: Global, tokens: &Tokens) -> Result<String, NoMemory> {
    let mut text = String::new(alloc);
    for at in 0..tokens.len() {
        let Some(token) = tokens.at(at) else {
            return Ok(text);
        };
        let mark = if at == 0 { "" } else { ", " };
        let (kind, start, end) = (token.kind, token.start, token.end);
        text.push_str(format!(in alloc; "{mark}{kind:?} {start} {end}")?.as_str())?;
    }
    if tokens.at(tokens.len()).is_some() {
        text.push_str(", more")?;
    }
    Ok(text)
}

// The tokens of a source, or why it has none.
fn told(alloc: Global, source: &str) -> Result<String, NoMemory> {
    if source.len() > 400 {
        return Ok(String::from_str(alloc, "a long source")?);
    }
    match tokens(alloc, source.as_bytes()) {
        Ok(list) => token_texts(alloc, &list),
        Err(error) => Ok(format!(in alloc; "{error:?}")?),
    }
}

// The first row whose source has others.
fn first_wrong(alloc: Global) -> Result<Option<&'static str>, NoMemory> {
    for row in TOKENS.lines() {
        let (source, want) = row.split_once('|').unwrap_or((row, "no tokens"));
        if told(alloc, source)?.as_str() != want {
            return Ok(Some(row));
        }
    }
    if told(alloc, BLANKS)?.as_str() != "End 4 4" {
        return Ok(Some(BLANKS));
    }
    Ok(None)
}

// The first hundred names of a source, each with a blank before it.
fn name_texts(alloc: Global, source: &[u8]) -> Result<String, NoMemory>
    requires { length source.now ≤ most_bytes }
{
    let mut text = String::new(alloc);
    let Ok(list) = tokens(alloc, source) else {
        return Ok(text);
    };
    for no in 0..100u32 {
        let Some(name) = list.name(no) else {
            return Ok(text);
        };
        text.push_str(" ")?;
        text.push_str(name)?;
    }
    Ok(text)
}

// A node of a place or a read, with its numbers and its place.
fn node_text(alloc: Global, node: Option<&Node>) -> Result<String, NoMemory> {
    let Some(node) = node else {
        return Ok(String::from_str(alloc, "none")?);
    };
    let at = node.place;
    match &node.term {
        Term::Place(name, stars) => Ok(format!(in alloc; "place {name} {stars} at {at}")?),
        Term::Read(place) => Ok(format!(in alloc; "read {place} at {at}")?),
        _ => Ok(String::from_str(alloc, "another")?),
    }
}

// The first three nodes of a tree.
fn node_texts(alloc: Global, tree: &Tree) -> Result<String, NoMemory> {
    let mut text = String::new(alloc);
    for no in 0..3u32 {
        text.push_str(node_text(alloc, tree.node(no))?.as_str())?;
        text.push_str("; ")?;
    }
    Ok(text)
}

// How many nodes and which root a tree has, and its first two names.
fn tree_text(alloc: Global, tree: &Tree) -> Result<String, NoMemory> {
    let (count, first, second) = (tree.len(), tree.name(0), tree.name(1));
    Ok(format!(in alloc; "{count} nodes, names {first:?} {second:?}")?)
}

// The nodes of an empty tree and of the tree of `**x` at place 4, its root and its names, and two items of a list with the root alone.
fn small_tree(alloc: Global) -> Result<String, NoMemory> {
    let mut tree = Tree::new(alloc);
    let empty = node_text(alloc, tree.node(0))?;
    let name = tree.add_name("x")?;
    let place = tree.add(Term::Place(name, 2), 4)?;
    let read = tree.add(Term::Read(place), 4)?;
    let mut items = Nodes::new(alloc);
    items.reserve(1)?;
    items.push(read)?;
    let (nodes, said, root) = (
        node_texts(alloc, &tree)?,
        tree_text(alloc, &tree)?,
        tree.root(),
    );
    let (first, second) = (items.at(0), items.at(1));
    Ok(format!(in alloc; "{empty}; {nodes}{said}; root {root}; items {first:?} {second:?}")?)
}

#[test]
fn tokens_and_their_places(rt: HostRuntime) -> Result<(), Fail> {
    let (wrong, names) = (
        first_wrong(rt.alloc())?,
        name_texts(rt.alloc(), b"y let x y")?,
    );
    assert_eq!(rt; (wrong, names.as_str()), (None, " y x"));
    Ok(())
}

#[test]
fn a_tree_keeps_its_nodes(rt: HostRuntime) -> Result<(), Fail> {
    let said = small_tree(rt.alloc())?;
    assert_eq!(rt;
        said.as_str(),
        "none; place 0 2 at 4; read 0 at 4; none; 2 nodes, names Some(\"x\") None; root 1; items Some(1) None"
    );
    Ok(())
}
