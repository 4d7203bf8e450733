//! The codes of programs.

ghost use Rattle.std.specs.Prelude.{IfOk};
ghost use Rattle.borrow_check.specs.Programs.{IsCheckable};

use crate::rows::ROWS;
use borrow_check::{CheckError, Checked, check};
use fr_base::{Code, NoMemory};
use fr_compile::compile;
use fr_grammar::parse;
use fr_syntax::{Nodes, Term, Tree, tokens};
use std::alloc::Global;
use std::test::Fail;

// The checked program of a source. One that is too long has a fault that no test expects.
fn checked(alloc: Global, input: &[u8]) -> Result<Result<Checked, CheckError>, Fail> {
    if input.len() > 1_048_576 {
        return Ok(Err(CheckError::NoMemory));
    }
    let tokens = tokens(alloc, input)?;
    let tree = parse(alloc, &tokens)?;
    Ok(check(alloc, tree))
}

// The first two hundred instructions of a code, each with a semicolon behind it.
fn written(alloc: Global, code: &Code) -> Result<String, Fail> {
    let mut text = String::new(alloc);
    for pc in 0..200u32 {
        let Some(instr) = code.at(pc) else {
            return Ok(text);
        };
        text.push_str(format!(in alloc; "{instr:?}; ")?.as_str())?;
    }
    Ok(text)
}

// The tree of `{ let mut m = mutex 1; lock m as c let mut x = 2 }`, which no source has: there the body of a lock is a block.
fn variable_of_a_lock(alloc: Global) -> Result<Tree, NoMemory>
    ensures { IfOk result IsCheckable }
{
    let mut tree = Tree::new(alloc);
    let m = tree.add_name("m")?;
    let c = tree.add_name("c")?;
    let x = tree.add_name("x")?;
    let mut items = Nodes::new(alloc);
    let one = tree.add(Term::Number(1), 20)?;
    let made = tree.add(Term::Mutex(one), 14)?;
    items.push(tree.add(Term::Let(m, made), 2)?)?;
    let of = tree.add(Term::Place(m, 0), 28)?;
    let two = tree.add(Term::Number(2), 48)?;
    let body = tree.add(Term::Let(x, two), 36)?;
    items.push(tree.add(Term::Lock(of, c, body), 23)?)?;
    tree.add(Term::Block(items), 0)?;
    Ok(tree)
}

#[test]
fn programs_have_their_codes(rt: HostRuntime) -> Result<(), Fail> {
    for (input, expected) in ROWS {
        let checked = checked(rt.alloc(), input.as_bytes())??;
        let code = compile(rt.alloc(), &checked)?;
        assert_eq!(rt; written(rt.alloc(), &code)?.as_str(), expected, "{input}");
    }
    let checked = check(rt.alloc(), variable_of_a_lock(rt.alloc())?)?;
    let code = compile(rt.alloc(), &checked)?;
    assert_eq!(rt;
        written(rt.alloc(), &code)?.as_str(),
        "Mutex(Const(1)); Let(Pop); Lock(Lval { slot: 0, depth: 0 }); Let(Const(2)); DropSlot; Unlock; DropSlot; End(Unit); "
    );
    Ok(())
}
