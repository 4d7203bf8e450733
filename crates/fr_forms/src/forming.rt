//! The forms of a checked program's nodes.

ghost use Rattle.std.specs.Prelude.{◌≡◌, ◌+◌, ◌<◌, ◌≤◌, length, IfOk};
ghost use Rattle.fr_syntax.specs.Meanings.{meanings, meaning_at, needs, all_need, sort_of, term_of, place_s, capture_s, AreBelow, AllBelow};
ghost use Rattle.fr_plain.specs.Resolve.{program};
ghost use Rattle.borrow_check.specs.Programs.{IsChecked};
ghost use Rattle.fr_forms.specs.Depths.{depth};
ghost use Rattle.fr_forms.specs.FormTerms.{AreInOrder, NamesBelow};
ghost use Rattle.fr_forms.specs.Forming.{clipped, count_of, place_in, captured_in, captured_all, drops_of, IsCount, IsBodyOf, IsMade};
ghost use Rattle.fr_forms.specs.FormTerms.{root_of as root_run};

use crate::forms::{Body, Captured, Form};
use borrow_check::Checked;
use fr_base::{Lval, NoMemory};
use fr_syntax::{Nodes, Term};
use std::alloc::Global;

// The place of a place node.
fn place(checked: &Checked, node: u32) -> Lval
    requires here { node < length (meanings checked.now.arena) }
    requires sort { sort_of (meaning_at (meanings checked.now.arena) node).what ≡ place_s }
    ensures { result ≡ place_in checked.now node }
{
    let Some(place) = checked.lval(node) else {
        unreachable!()
    };
    place
}

// The slot of a captured name's variable, and whether its value goes to the new thread.
fn captured_slot(checked: &Checked, node: u32) -> Captured
    requires here { node < length (meanings checked.now.arena) }
    requires sort { sort_of (meaning_at (meanings checked.now.arena) node).what ≡ capture_s }
    ensures { result ≡ captured_in checked.now node }
{
    let Some(place) = checked.lval(node) else {
        unreachable!()
    };
    Captured {
        slot: place.slot,
        take: checked.takes(node),
    }
}

// The captured slots of a new thread, in order.
fn captured_slots(
    alloc: Global,
    checked: &Checked,
    names: &Nodes,
) -> Result<Vec<Captured>, NoMemory>
    requires { AreBelow (meanings checked.now.arena) (length (meanings checked.now.arena)) (all_need capture_s names.now.items) }
    ensures { IfOk result (λ v. v.items ≡ captured_all checked.now names.now.items) }
{
    let mut captures = Vec::new(alloc);
    'names: for next in 0..names.len() {
        let Some(node) = names.at(next) else {
            unreachable!()
        };
        captures.push(captured_slot(checked, *node))?;
    }
    Ok(captures)
}

// How many slots a new thread drops at its end, which captures so many names and whose body declares so many variables.
fn drops(names: u64, variables: u32) -> u32
    ensures { result ≡ clipped (names + variables) }
{
    names.saturating_add(variables as u64).min(u32::MAX as u64) as u32
}

// A new thread of a pair, behind a pointer. The nodes before declare so many variables.
fn body(
    alloc: Global,
    checked: &Checked,
    names: &Nodes,
    term: u32,
    counts: &[u32],
) -> Result<Box<Body>, NoMemory>
    requires names { AreBelow (meanings checked.now.arena) (length (meanings checked.now.arena)) (all_need capture_s names.now.items) }
    requires term { term < length counts.now }
    ensures { IfOk result (λ b. IsBodyOf (captured_all checked.now names.now.items) term (drops_of counts.now names.now.items term) b.value) }
{
    let body = Body {
        captures: captured_slots(alloc, checked, names)?,
        term,
        drops: drops(names.len(), counts[term as usize]),
    };
    Ok(Box::new(alloc, body)?)
}

// The numbers of nodes, in a vector.
fn numbers(alloc: Global, nodes: &Nodes) -> Result<Vec<u32>, NoMemory>
    ensures { IfOk result (λ v. v.items ≡ nodes.now.items) }
{
    let mut numbers = Vec::new(alloc);
    'nodes: for next in 0..nodes.len() {
        let Some(node) = nodes.at(next) else {
            unreachable!()
        };
        numbers.push(*node)?;
    }
    Ok(numbers)
}

// How many variables the items of a block declare.
fn variables(nodes: &Nodes, counts: &[u32]) -> u32
    requires { AllBelow (length counts.now) nodes.now.items }
    ensures { IsCount counts.now nodes.now.items result }
{
    let mut count = 0u32;
    'nodes: for next in 0..nodes.len() {
        let Some(node) = nodes.at(next) else {
            unreachable!()
        };
        count = count.saturating_add(counts[*node as usize]);
    }
    count
}

// How many variables a form's term declares outside of the blocks in it.
fn count_in(counts: &[u32], form: &Form) -> u32
    requires below { NamesBelow (length counts.now) form.now }
    ensures { result ≡ count_of counts.now form.now }
{
    match form {
        Form::Let(value) => counts[*value as usize].saturating_add(1),
        Form::Arith(_, left, right) => {
            counts[*left as usize].saturating_add(counts[*right as usize])
        }
        Form::Assign(_, value) => counts[*value as usize],
        Form::Box(value) => counts[*value as usize],
        Form::Print(value) => counts[*value as usize],
        Form::Join(value) => counts[*value as usize],
        Form::Mutex(value) => counts[*value as usize],
        _ => 0,
    }
}

// The form of a node. The nodes before it declare so many variables.
fn form_of(
    alloc: Global,
    checked: &Checked,
    at: u32,
    term: &Term,
    counts: &[u32],
) -> Result<Form, NoMemory>
    requires here { at < length (meanings checked.now.arena) }
    requires parts { AreBelow (meanings checked.now.arena) at (needs term.now) }
    requires counts { length counts.now ≡ at }
    ensures made { IfOk result (IsMade checked.now counts.now at term.now) }
    ensures below { IfOk result (NamesBelow at) }
{
    match term {
        Term::Number(value) => Ok(Form::Number(*value)),
        Term::Unit => Ok(Form::Unit),
        Term::Read(from) => Ok(Form::Read(place(checked, *from), checked.takes(at))),
        Term::Borrow(of) => Ok(Form::Borrow(place(checked, *of), false)),
        Term::BorrowMut(of) => Ok(Form::Borrow(place(checked, *of), true)),
        Term::Box(value) => Ok(Form::Box(*value)),
        Term::Let(_, value) => Ok(Form::Let(*value)),
        Term::Print(value) => Ok(Form::Print(*value)),
        Term::Join(task) => Ok(Form::Join(*task)),
        Term::Mutex(value) => Ok(Form::Mutex(*value)),
        Term::Dup(of) => Ok(Form::Dup(place(checked, *of))),
        Term::Lock(of, _, body) => Ok(Form::Lock(
            place(checked, *of),
            *body,
            counts[*body as usize],
        )),
        Term::Assign(to, value) => Ok(Form::Assign(place(checked, *to), *value)),
        Term::Arith(op, left, right) => Ok(Form::Arith(*op, *left, *right)),
        Term::Block(items) => Ok(Form::Block(numbers(alloc, items)?, variables(items, counts))),
        Term::Spawn(names, body) => Ok(Form::Spawn(
            captured_slots(alloc, checked, names)?,
            *body,
            drops(names.len(), counts[*body as usize]),
        )),
        Term::Par(names, first, others, second) => Ok(Form::Par(
            body(alloc, checked, names, *first, counts)?,
            body(alloc, checked, others, *second, counts)?,
        )),
        _ => Ok(Form::Place),
    }
}

/// The forms of a program, one for each node. Takes time in the number of nodes.
pub fn forms_of(alloc: Global, checked: &Checked) -> Result<Vec<Form>, NoMemory>
    ensures order { IfOk result (λ forms. AreInOrder forms.items) }
    ensures some { IfOk result (λ forms. 0 < length forms.items) }
    ensures root { IfOk result (λ forms. root_run forms.items ≡ program (term_of checked.now.arena)) }
    ensures depth { IfOk result (λ forms. depth (root_run forms.items) ≤ 128) }
    ensures checked { IsChecked checked.now }
{
    let tree = checked.tree();
    let mut forms = Vec::new(alloc);
    let mut counts = Vec::new(alloc);
    'nodes: for at in 0..tree.len() as u32 {
        let Some(node) = tree.node(at) else {
            unreachable!()
        };
        let form = form_of(alloc, checked, at, &node.term, &counts)?;
        counts.push(count_in(&counts, &form))?;
        forms.push(form)?;
    }
    Ok(forms)
}
