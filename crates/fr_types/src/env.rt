//! The environment.

ghost use Rattle.std.specs.Prelude.{◌≡◌, ℕ, ◌<◌, ◌≤◌, ◌↔◌, [], ◌∷◌, ◌++◌, List, length, drop, slice_index_or, vec_len, IsSome, IfOk, OnOk, OnErr, IfSome, None};
ghost use Rattle.std.specs.Vec.{vec_capacity};
ghost use Rattle.fr_terms.specs.Terms.{Text};
ghost use Rattle.fr_typing.specs.Places.{AreBelow, piece_places, read_blocked, write_blocked, put_at, kind_shape, shape_at, equal_shapes};
ghost use Rattle.fr_typing.specs.Checks.{has_shape_of};
ghost use Rattle.fr_types.specs.Bounds.{most_slots};
ghost use Rattle.fr_types.specs.Types.{kind_of, piece_of};
ghost use Rattle.fr_types.specs.States.{slot_in, part_in, put_in, env_of, IsNew, AreNested};
ghost use Rattle.fr_types.specs.Inside.{HasRoom, with_entry, newest, IsTabled};
ghost use Rattle.fr_types.specs.SlotShapes.{AreShapes};
ghost use Rattle.fr_types.specs.Lent.{loans_at};
ghost use Rattle.fr_types.specs.Bases.{starred, base, target_at};

use crate::loans::{Loans, give_back, lend};
use crate::put::put_under;
use crate::resolved::{Starred, aim, renew, resolve};
use crate::slot_shapes::SlotShapes;
use crate::types::{Part, Ty};
use crate::variable::Variable;
use fr_base::{Lval, NoMemory};
use std::alloc::Global;
use std::marker::Model;
use std::mem;

/// The slots of an environment. Each part names only slots below its own, and no two slots have the same name.
/// Contracts see the slots, the last one first.
#[derive(Debug, Drop)]
pub struct Env {
    slots: Vec<Variable>,
    // by name: its slot
    slot_of: Vec<Option<u32>>,
    // by slot: the references to it
    loans: Vec<Loans>,
    // by slot: where it leads, if it has a whole reference to one place
    targets: Vec<Option<Starred>>,
    // by slot: its shape
    shapes: SlotShapes,
}

impl Model for Env {
    ghost use Rattle.std.specs.Prelude.{List};
    ghost use Rattle.fr_types.specs.States.{Held};
    ghost use Rattle.fr_types.specs.Codes.{env_code};
    ghost use Rattle.fr_types.specs.Inside.{newest, IsInside};

    ghost Value = { List Held };

    ghost coded = { env_code };

    ghost view = { λ e. newest e.slots.items };

    ghost invariant = { λ e. IsInside (newest e.slots.items) e.slot_of.items e.loans.items e.targets.items e.shapes };
}

impl Env {
    /// No slot.
    pub fn new(alloc: Global) -> Env
        ensures { result ≡ [] }
    {
        Env {
            slots: Vec::new(alloc),
            slot_of: Vec::new(alloc),
            loans: Vec::new(alloc),
            targets: Vec::new(alloc),
            shapes: SlotShapes::new(alloc),
        }
    }

    /// How many slots there are, at most 268,435,456.
    #[tactic(auto, using(crate::proofs::EnvLemmas::length_newest))]
    pub fn len(&self) -> u32
        ensures len { result ≡ length self.now }
        ensures few { result ≤ most_slots }
        ensures nested { AreNested self.now }
    {
        self.slots.len() as u32
    }

    /// The slot of the name, found without a search. `None`: no slot has it.
    pub fn find(&self, name: u32) -> Option<u32>
        ensures slot { result ≡ slot_in self.now name }
        ensures here { IfSome result (λ s. s < length self.now) }
    {
        let at = name as usize;
        if at < self.slot_of.len() {
            self.slot_of[at]
        } else {
            None
        }
    }

    /// The part of the slot. `None`: there is no such slot.
    pub fn slot(&self, no: u32) -> Option<&Part>
        ensures some { IsSome result ↔ (no < length self.now) }
        ensures part { IfSome result (λ p. piece_of p.now ≡ part_in self.now no) }
        ensures below { IfSome result (λ p. AreBelow no (piece_places (piece_of p.now))) }
        ensures nested { AreNested self.now }
    {
        let at = no as usize;
        if at < self.slots.len() {
            Some(&self.slots[at].part)
        } else {
            None
        }
    }

    /// A new slot above the others; the names' table grows to the name's number. It also costs the places of the part, the stars
    /// of the first one and the levels of an owned type. A refusal changes nothing.
    pub fn push(&mut self, name: Option<u32>, part: Part) -> Result<(), NoMemory>
        requires below { AreBelow (length self.old) (piece_places (piece_of part)) }
        requires new { IsNew self.old name }
        requires few { length self.old < most_slots }
        ensures pushed { OnOk result (self.new ≡ record { name = name; part = piece_of part } ∷ self.old) }
        ensures refused { OnErr result (self.new ≡ self.old) }
    {
        let variable = Variable { name, part };
        let entered = enter(
            &mut self.slots,
            &mut self.slot_of,
            &mut self.loans,
            &mut self.targets,
            &mut self.shapes,
            &variable,
        );
        if let Err(e) = entered {
            drop(variable);
            return Err(e);
        }
        self.slots.push_reserved(variable);
        Ok(())
    }

    /// Another part at the slot. It costs the places of both parts, the stars of the first ones and the levels of owned types;
    /// where a reference leads to the slot and the new part leads elsewhere than the old one, also the slots above.
    pub fn set(&mut self, no: u32, part: Part)
        requires here { no < length self.old }
        requires below { AreBelow no (piece_places (piece_of part)) }
        ensures { self.new ≡ put_in self.old no (piece_of part) }
    {
        let at = no as usize;
        let is_lent = self.write_blocked(no);
        give_back(&mut self.loans, &self.slots[at].part);
        lend(&mut self.loans, &part);
        self.shapes.change(&self.slots[at].part, &part);
        drop(mem::replace(&mut self.slots[at].part, part));
        renew(&mut self.targets, self.slots.as_slice(), at, is_lent);
    }

    /// The last slot goes, and its part is the answer. `None`: there is no slot.
    pub fn pop(&mut self) -> Option<Part>
        ensures some { IsSome result ↔ (0 < length self.old) }
        ensures part { IfSome result (λ p. piece_of p ≡ part_in self.old (length self.new)) }
        ensures rest { self.new ≡ drop 1 self.old }
    {
        let Some(variable) = self.slots.pop() else {
            return None;
        };
        let Variable { name, part } = variable;
        give_back(&mut self.loans, &part);
        self.shapes.pop();
        let at = self.slots.len();
        self.targets[at] = None;
        note(&mut self.slot_of, name, None);
        Some(part)
    }

    /// An equal environment.
    pub fn copy(&self, alloc: Global) -> Result<Env, NoMemory>
        ensures { IfOk result (λ e. e ≡ self.now) }
    {
        let slot_of = copied(&self.slot_of)?;
        let loans = copied_loans(&self.loans)?;
        let targets = copied_targets(&self.targets)?;
        let shapes = self.shapes.copy()?;
        let slots = copied_slots(alloc, self.slots.as_slice())?;
        Ok(Env {
            slots,
            slot_of,
            loans,
            targets,
            shapes,
        })
    }

    /// Whether some slot has a mutable reference that starts at this one, by its count.
    pub fn read_blocked(&self, no: u32) -> bool
        ensures { (names : List Text) → result ≡ read_blocked (env_of names self.now) no }
    {
        let at = no as usize;
        at < self.loans.len() && 0 < self.loans[at].mutable
    }

    /// Whether some slot has a reference that starts at this one, by its count.
    pub fn write_blocked(&self, no: u32) -> bool
        ensures { (names : List Text) → result ≡ write_blocked (env_of names self.now) no }
    {
        let at = no as usize;
        at < self.loans.len() && 0 < self.loans[at].any
    }

    // Where the place really is: its type is the same there. It costs the place's stars.
    pub(crate) fn resolve(&self, w: Lval) -> Starred
        requires here { w.slot < length self.now }
        ensures slot { result.slot ≤ w.slot }
        ensures base { result ≡ base self.now (starred w) }
        ensures nested { AreNested self.now }
    {
        resolve(self.targets.as_slice(), w)
    }

    // Whether both types have a shape, and the same one; it costs the stars of two places, or the levels of an owned type.
    // `None`: the shapes of slots aren't known.
    pub(crate) fn same_shapes(&self, a: &Ty, b: &Ty) -> Option<bool>
        ensures { (names : List Text) → IfSome result (λ same. same ≡ equal_shapes (kind_shape (shape_at (env_of names self.now)) (kind_of a.now)) (kind_shape (shape_at (env_of names self.now)) (kind_of b.now))) }
    {
        self.shapes.same(a, b)
    }

    // The same for a part and a type.
    pub(crate) fn fits(&self, part: &Part, t: &Ty) -> Option<bool>
        ensures { (names : List Text) → IfSome result (λ same. same ≡ has_shape_of (env_of names self.now) (piece_of part.now) (kind_of t.now)) }
    {
        self.shapes.fits(part, t)
    }

    // The same for two places.
    pub(crate) fn same_places(&self, u: Lval, v: Lval) -> Option<bool>
        ensures { (names : List Text) → IfSome result (λ same. same ≡ equal_shapes (shape_at (env_of names self.now) u) (shape_at (env_of names self.now) v)) }
    {
        self.shapes.same_places(u, v)
    }

    /// Puts the part at a place whose path is its own; a refusal changes nothing.
    pub fn put(&mut self, alloc: Global, w: Lval, part: Part) -> Result<(), NoMemory>
        requires here { w.slot < length self.old }
        requires below { AreBelow w.slot (piece_places (piece_of part)) }
        ensures put { OnOk result ((names : List Text) → env_of names self.new ≡ put_at (env_of names self.old) w (piece_of part)) }
        ensures names { (name : ℕ) → slot_in self.new name ≡ slot_in self.old name }
        ensures refused { OnErr result (self.new ≡ self.old) }
    {
        let Some(old) = self.slot(w.slot) else {
            unreachable!()
        };
        let new = put_under(alloc, old, w.depth, part)?;
        self.set(w.slot, new);
        Ok(())
    }
}

fn copied(slot_of: &Vec<Option<u32>>) -> Result<Vec<Option<u32>>, NoMemory>
    ensures { IfOk result (λ xs. xs.items ≡ slot_of.now.items) }
{
    Ok(slot_of.clone()?)
}

// Equal slots.
fn copied_slots(alloc: Global, slots: &[Variable]) -> Result<Vec<Variable>, NoMemory>
    ensures { IfOk result (λ vs. newest vs.items ≡ newest slots.now) }
{
    let mut made = Vec::new(alloc);
    'slots: for at in 0..slots.len() {
        let Variable { name, part } = &slots[at];
        made.push(Variable {
            name: *name,
            part: part.copy(alloc)?,
        })?;
    }
    Ok(made)
}

// The tables with one slot more, and room for the slot itself; after a refusal they still are those of the slots there.
fn enter(
    slots: &mut Vec<Variable>,
    slot_of: &mut Vec<Option<u32>>,
    loans: &mut Vec<Loans>,
    targets: &mut Vec<Option<Starred>>,
    shapes: &mut SlotShapes,
    variable: &Variable,
) -> Result<(), NoMemory>
    requires tabled { IsTabled (newest slots.old.items) slot_of.old.items loans.old.items targets.old.items }
    requires shaped { AreShapes (newest slots.old.items) shapes.old }
    requires below { AreBelow (length (newest slots.old.items)) (piece_places (piece_of variable.now.part)) }
    requires new { IsNew (newest slots.old.items) variable.now.name }
    requires few { length (newest slots.old.items) < most_slots }
    ensures slots { slots.new.items ≡ slots.old.items }
    ensures room { OnOk result (vec_len slots.new < vec_capacity slots.new) }
    ensures tabled { OnOk result (IsTabled (newest (slots.old.items ++ variable.now ∷ [])) slot_of.new.items loans.new.items targets.new.items) }
    ensures shaped { OnOk result (AreShapes (newest (slots.old.items ++ variable.now ∷ [])) shapes.new) }
    ensures still_tabled { OnErr result (IsTabled (newest slots.old.items) slot_of.new.items loans.new.items targets.new.items) }
    ensures still_shaped { OnErr result (AreShapes (newest slots.old.items) shapes.new) }
{
    let slot = slots.len() as u32;
    make_room(slot_of, variable.name)?;
    make_space(loans, slot)?;
    make_targets(targets, slot)?;
    slots.reserve(1)?;
    shapes.push(&variable.part)?;
    lend(loans, &variable.part);
    let target = aim(targets.as_slice(), &variable.part);
    targets[slot as usize] = target;
    note(slot_of, variable.name, Some(slot));
    Ok(())
}

// Places that hold nothing, up to that of the name.
fn make_room(slot_of: &mut Vec<Option<u32>>, name: Option<u32>) -> Result<(), NoMemory>
    ensures same { (at : ℕ) → slice_index_or slot_of.new.items at None ≡ slice_index_or slot_of.old.items at None }
    ensures room { OnOk result (HasRoom name slot_of.new.items) }
{
    let Some(name) = name else {
        return Ok(());
    };
    'names: while slot_of.len() <= name as usize {
        slot_of.push(None)?;
    }
    Ok(())
}

// The name's entry is this one.
fn note(slot_of: &mut Vec<Option<u32>>, name: Option<u32>, slot: Option<u32>)
    requires { HasRoom name slot_of.old.items }
    ensures { slot_of.new.items ≡ with_entry slot_of.old.items name slot }
{
    if let Some(name) = name {
        slot_of[name as usize] = slot;
    }
}

fn copied_loans(loans: &Vec<Loans>) -> Result<Vec<Loans>, NoMemory>
    ensures { IfOk result (λ xs. xs.items ≡ loans.now.items) }
{
    Ok(loans.clone()?)
}

fn copied_targets(targets: &Vec<Option<Starred>>) -> Result<Vec<Option<Starred>>, NoMemory>
    ensures { IfOk result (λ xs. xs.items ≡ targets.now.items) }
{
    Ok(targets.clone()?)
}

// Slots to which no reference is, up to this one.
fn make_space(loans: &mut Vec<Loans>, slot: u32) -> Result<(), NoMemory>
    ensures same { (at : ℕ) → loans_at loans.new.items at ≡ loans_at loans.old.items at }
    ensures longer { length loans.old.items ≤ length loans.new.items }
    ensures room { OnOk result (slot < length loans.new.items) }
{
    'slots: while loans.len() <= slot as usize {
        loans.push(Loans { mutable: 0, any: 0 })?;
    }
    Ok(())
}

// Slots that lead nowhere, up to this one.
fn make_targets(targets: &mut Vec<Option<Starred>>, slot: u32) -> Result<(), NoMemory>
    requires few { slot < most_slots }
    requires small { length targets.old.items ≤ most_slots }
    ensures same { (at : ℕ) → target_at targets.new.items at ≡ target_at targets.old.items at }
    ensures longer { length targets.old.items ≤ length targets.new.items }
    ensures small { length targets.new.items ≤ most_slots }
    ensures room { OnOk result (slot < length targets.new.items) }
{
    'slots: while targets.len() <= slot as usize {
        targets.push(None)?;
    }
    Ok(())
}
