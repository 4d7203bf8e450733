//! What the rows of a case do to the slots of an environment, and what they ask of them.

ghost use Rattle.std.specs.Prelude.{◌≡◌};

use fr_base::{Lval, NoMemory};
use fr_types::{
    Env, O, Part, Places, Ty, TypeError, goes_through_mutable, is_own_path, is_writable, lval_type,
    same_shape,
};
use std::alloc::Global;

// The most slots that an environment has.
const MOST: u32 = 268_435_456;

// A row: a word, and up to two places. A place is a slot and its stars; where a word takes less, the rest says nothing.
#[derive(Clone, Copy)]
struct Row<'a> {
    word: &'a str,
    first: Lval,
    second: Lval,
}

// The place that a text begins with, and what is behind it.
fn place_of(text: &str) -> (Lval, &str) {
    let (slot, rest) = text.split_once(' ').unwrap_or((text, ""));
    let (depth, rest) = rest.split_once(' ').unwrap_or((rest, ""));
    let slot = slot.parse::<u32>().unwrap_or(MOST);
    let depth = depth.parse::<u8>().unwrap_or(0);
    (Lval { slot, depth }, rest)
}

fn row_of(text: &str) -> Row<'_> {
    let (word, rest) = text.split_once(' ').unwrap_or((text, ""));
    let (first, rest) = place_of(rest);
    let (second, _) = place_of(rest);
    Row {
        word,
        first,
        second,
    }
}

/// What the environment answers to the row, which may change it; a change has no answer.
pub fn answer(alloc: Global, env: &mut Env, text: &str) -> Result<String, NoMemory> {
    let row = row_of(text);
    if is_added(alloc, env, row)? || is_changed(alloc, env, row)? {
        return Ok(String::new(alloc));
    }
    asked(alloc, env, row)
}

// Whether the row adds slots or takes one away, which is done then.
fn is_added(alloc: Global, env: &mut Env, row: Row<'_>) -> Result<bool, NoMemory> {
    let Row {
        word,
        first,
        second,
    } = row;
    match word {
        "number" => number(env)?,
        "box" => boxed(env)?,
        "mutex" => held(alloc, env)?,
        "share" => share(alloc, env, first)?,
        "lend" => lend(alloc, env, first)?,
        "either" => either(alloc, env, first, second)?,
        "chain" => chain(alloc, env, first.slot, first.depth)?,
        "pop" => pop(env)?,
        "copy" => copy(alloc, env)?,
        _ => return Ok(false),
    }
    Ok(true)
}

// Whether the row changes a slot, which is done then.
fn is_changed(alloc: Global, env: &mut Env, row: Row<'_>) -> Result<bool, NoMemory> {
    let Row {
        word,
        first,
        second,
    } = row;
    match word {
        "set-unit" => set_unit(env, first.slot)?,
        "set-number" => set_number(env, first.slot)?,
        "set-share" => set_shared(alloc, env, first.slot, second)?,
        "set-gone" => set_gone(alloc, env, first.slot, second)?,
        "take" => take_away(alloc, env, first)?,
        "put" => put(alloc, env, first)?,
        _ => return Ok(false),
    }
    Ok(true)
}

// What stands at a place; whether reads and writes of a slot are blocked; whether a place is writable, whether its path is its own,
// and whether it goes through a mutable reference; whether references to two places have one shape; whether the slots are a chain.
fn asked(alloc: Global, env: &Env, row: Row<'_>) -> Result<String, NoMemory> {
    let Row {
        word,
        first,
        second,
    } = row;
    match word {
        "kind" => Ok(String::from_str(alloc, kind(alloc, env, first)?)?),
        "blocked" => {
            let (reads, writes) = (env.read_blocked(first.slot), env.write_blocked(first.slot));
            Ok(format!(in alloc; "{reads} {writes}")?)
        }
        "path" => {
            let (writable, own, mutable) = path(alloc, env, first)?;
            Ok(format!(in alloc; "{writable} {own} {mutable}")?)
        }
        "same" => told(alloc, same(alloc, env, first, second)?),
        "links" => told(alloc, are_links(alloc, env, first.slot)?),
        "levels" => told(alloc, are_levels(alloc, env, first.slot)?),
        _ => Ok(String::from_str(alloc, "no such row")?),
    }
}

fn told(alloc: Global, is_so: bool) -> Result<String, NoMemory> {
    Ok(String::from_str(alloc, if is_so { "true" } else { "false" })?)
}

fn at(slot: u32, depth: u8) -> Lval
    ensures { result ≡ record { slot = slot; depth = depth } }
{
    Lval { slot, depth }
}

fn number(env: &mut Env) -> Result<(), NoMemory> {
    if env.len() == MOST {
        return Err(NoMemory);
    }
    env.push(None, Part::Whole(Ty::Int))
}

fn boxed(env: &mut Env) -> Result<(), NoMemory> {
    if env.len() == MOST {
        return Err(NoMemory);
    }
    env.push(None, Part::Whole(Ty::Box(O::Int)))
}

fn held(alloc: Global, env: &mut Env) -> Result<(), NoMemory> {
    if env.len() == MOST {
        return Err(NoMemory);
    }
    let o = Box::new(alloc, O::Int)?;
    env.push(None, Part::Whole(Ty::Mutex(O::Box(o))))
}

fn share(alloc: Global, env: &mut Env, w: Lval) -> Result<(), NoMemory> {
    if env.len() == MOST || w.slot >= env.len() {
        return Err(NoMemory);
    }
    let us = Places::one(alloc, w)?;
    env.push(None, Part::Whole(Ty::Shared(us)))
}

fn lend(alloc: Global, env: &mut Env, w: Lval) -> Result<(), NoMemory> {
    if env.len() == MOST || w.slot >= env.len() {
        return Err(NoMemory);
    }
    let us = Places::one(alloc, w)?;
    env.push(None, Part::Whole(Ty::Mut(us)))
}

fn either(alloc: Global, env: &mut Env, u: Lval, w: Lval) -> Result<(), NoMemory> {
    if env.len() == MOST || u.slot >= env.len() || w.slot >= env.len() {
        return Err(NoMemory);
    }
    let first = Places::one(alloc, u)?;
    let second = Places::one(alloc, w)?;
    let us = first.union(alloc, &second)?;
    env.push(None, Part::Whole(Ty::Shared(us)))
}

fn chain(alloc: Global, env: &mut Env, count: u32, depth: u8) -> Result<(), NoMemory> {
    for _ in 0..count {
        let len = env.len();
        if len == 0 {
            return Err(NoMemory);
        }
        share(alloc, env, at(len - 1, depth))?;
    }
    Ok(())
}

fn pop(env: &mut Env) -> Result<(), NoMemory> {
    match env.pop() {
        Some(_) => Ok(()),
        None => Err(NoMemory),
    }
}

fn copy(alloc: Global, env: &mut Env) -> Result<(), NoMemory> {
    *env = env.copy(alloc)?;
    Ok(())
}

fn set_unit(env: &mut Env, slot: u32) -> Result<(), NoMemory> {
    if slot >= env.len() {
        return Err(NoMemory);
    }
    env.set(slot, Part::Whole(Ty::Unit));
    Ok(())
}

fn set_number(env: &mut Env, slot: u32) -> Result<(), NoMemory> {
    if slot >= env.len() {
        return Err(NoMemory);
    }
    env.set(slot, Part::Whole(Ty::Int));
    Ok(())
}

fn set_shared(alloc: Global, env: &mut Env, slot: u32, w: Lval) -> Result<(), NoMemory> {
    if slot >= env.len() || w.slot >= slot {
        return Err(NoMemory);
    }
    let us = Places::one(alloc, w)?;
    env.set(slot, Part::Whole(Ty::Shared(us)));
    Ok(())
}

fn set_gone(alloc: Global, env: &mut Env, slot: u32, w: Lval) -> Result<(), NoMemory> {
    if slot >= env.len() || w.slot >= slot {
        return Err(NoMemory);
    }
    let us = Places::one(alloc, w)?;
    env.set(slot, Part::Gone(Ty::Mut(us)));
    Ok(())
}

fn take_away(alloc: Global, env: &mut Env, w: Lval) -> Result<(), NoMemory> {
    if w.slot >= env.len() {
        return Err(NoMemory);
    }
    env.put(alloc, w, Part::Gone(Ty::Int))
}

fn put(alloc: Global, env: &mut Env, w: Lval) -> Result<(), NoMemory> {
    if w.slot >= env.len() {
        return Err(NoMemory);
    }
    env.put(alloc, w, Part::Whole(Ty::Int))
}

// What stands at the place, or why nothing does.
fn kind(alloc: Global, env: &Env, w: Lval) -> Result<&'static str, NoMemory> {
    if w.slot >= env.len() {
        return Ok("no slot");
    }
    match lval_type(alloc, env, w) {
        Ok(part) => Ok(part_kind(&part)),
        Err(TypeError::NotDefined) => Ok("not defined"),
        Err(TypeError::NoTarget) => Ok("no target"),
        Err(TypeError::NoMemory) => Err(NoMemory),
    }
}

fn part_kind(part: &Part) -> &'static str {
    match part {
        Part::Whole(Ty::Int) => "number",
        Part::Whole(Ty::Box(O::Int)) => "box",
        Part::Gone(_) => "gone",
        _ => "something else",
    }
}

// Whether it is writable, whether its path is its own, and whether it goes through a mutable reference.
fn path(alloc: Global, env: &Env, w: Lval) -> Result<(bool, bool, bool), NoMemory> {
    if w.slot >= env.len() {
        return Err(NoMemory);
    }
    let writable = is_writable(alloc, env, w)?;
    let own = is_own_path(alloc, env, w)?;
    Ok((writable, own, goes_through_mutable(alloc, env, w)?))
}

// Whether references to the two places have one shape.
fn same(alloc: Global, env: &Env, u: Lval, v: Lval) -> Result<bool, NoMemory> {
    if u.slot >= env.len() || v.slot >= env.len() {
        return Err(NoMemory);
    }
    let a = Ty::Shared(Places::one(alloc, u)?);
    let b = Ty::Shared(Places::one(alloc, v)?);
    Ok(same_shape(env, &a, &b))
}

// Whether each slot from 1 to this one leads to a number with one star, and all but the last have its shape.
fn are_links(alloc: Global, env: &Env, last: u32) -> Result<bool, NoMemory> {
    for slot in 1..last {
        let (link, star) = (at(slot, 0), at(slot, 1));
        if kind(alloc, env, star)? != "number"
            || !same(alloc, env, link, at(last, 0))?
            || same(alloc, env, star, at(last, 0))?
        {
            return Ok(false);
        }
    }
    Ok(kind(alloc, env, at(last, 1))? == "number")
}

// Whether each slot up to this one has another shape than the one before, and leads to it.
fn are_levels(alloc: Global, env: &Env, last: u32) -> Result<bool, NoMemory> {
    for slot in 1..=last {
        let before = at(slot - 1, 0);
        if same(alloc, env, before, at(slot, 0))? || !same(alloc, env, before, at(slot, 1))? {
            return Ok(false);
        }
    }
    Ok(true)
}
