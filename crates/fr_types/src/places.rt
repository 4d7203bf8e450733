//! Sets of places.

ghost use Rattle.std.specs.Prelude.{◌≡◌, ◌<◌, ◌||◌, ◌&&◌, ◌==◌, [], ◌∷◌, length, nat_lt, IfOk, OnOk};
ghost use Rattle.fr_typing.specs.Kinds.{lval_lt, insert_lval, union};
ghost use Rattle.fr_types.specs.Rising.{rank, IsPlaceSet};

use fr_base::{Lval, NoMemory};
use std::alloc::Global;
use std::marker::Model;

/// The places that a reference may lead to: at least one, by slot and then by stars, without repeats.
/// Contracts see the list.
#[derive(Debug, Drop)]
pub struct Places {
    items: Vec<Lval>,
}

impl Model for Places {
    ghost use Rattle.std.specs.Prelude.{List};
    ghost use Rattle.fr_base.specs.declared.place.Lval.{Lval};
    ghost use Rattle.fr_types.specs.Rising.{IsPlaceSet};

    ghost Value = { List Lval };

    ghost view = { λ p. p.items.items };

    ghost invariant = { λ p. IsPlaceSet p.items.items };
}

impl Places {
    /// The set of one place.
    pub fn one(alloc: Global, w: Lval) -> Result<Places, NoMemory>
        ensures { IfOk result (λ us. us ≡ w ∷ []) }
    {
        let mut items = Vec::new(alloc);
        items.push(w)?;
        Ok(Places { items })
    }

    /// An equal set.
    pub fn copy(&self, alloc: Global) -> Result<Places, NoMemory>
        ensures { IfOk result (λ us. us ≡ self.now) }
    {
        let items = copied(&self.items)?;
        Ok(Places { items })
    }

    /// The places, in order.
    pub fn as_slice(&self) -> &[Lval]
        ensures same { result.now ≡ self.now }
        ensures set { IsPlaceSet self.now }
    {
        self.items.as_slice()
    }

    /// Both sets together; it costs the product of their lengths.
    pub fn union(&self, alloc: Global, other: &Places) -> Result<Places, NoMemory>
        ensures { IfOk result (λ us. us ≡ union self.now other.now) }
    {
        let mut items = copied(&other.items)?;
        let mut left = self.items.len();
        'places: while left > 0 {
            left -= 1;
            insert(&mut items, self.items[left])?;
        }
        Ok(Places { items })
    }
}

fn copied(items: &Vec<Lval>) -> Result<Vec<Lval>, NoMemory>
    ensures { IfOk result (λ us. us.items ≡ items.now.items) }
{
    Ok(items.clone()?)
}

// Whether the first place stands before the second.
fn is_before(u: Lval, v: Lval) -> bool
    ensures { result ≡ lval_lt u v }
{
    u.slot < v.slot || (u.slot == v.slot && u.depth < v.depth)
}

// How many places stand before it at the front.
fn rank(items: &[Lval], u: Lval) -> usize
    ensures { result ≡ rank u items.now }
{
    items.iter().take_while(|v| is_before(**v, u)).count()
}

// One place more.
fn insert(items: &mut Vec<Lval>, u: Lval) -> Result<(), NoMemory>
    ensures { OnOk result (items.new.items ≡ insert_lval u items.old.items) }
{
    let at = rank(items, u);
    if at < items.len() && !is_before(u, items[at]) {
        return Ok(());
    }
    items.insert(at, u)?;
    Ok(())
}
