//! Shapes by their numbers in a table: the shapes of slots are there.

ghost use Rattle.std.specs.Prelude.{◌≡◌, Option, Some, None, IsSome, IfOk, slice_index_or};
ghost use Rattle.fr_typing.specs.Places.{Shape, owned_shape, kind_shape, piece_shape, equal_shapes};
ghost use Rattle.fr_types.specs.OwnedTypes.{owned_of};
ghost use Rattle.fr_types.specs.Types.{kind_of, piece_of};
ghost use Rattle.fr_types.specs.ShapeTables.{shape_of_no, wrapped, wrapped_in, is_owned_shape, IsNumber, Keeps};
ghost use Rattle.fr_types.specs.SlotShapes.{place_shape, shapes_by, AreNumbers};
ghost use Rattle.fr_base.specs.declared.place.Lval.{Lval};

use crate::kinds::{is_owned, is_type, same_owned, same_type};
use crate::shape_node::Sort;
use crate::shape_table::ShapeTable;
use crate::types::{O, Part, Ty};
use fr_base::{Lval, NoMemory};

// The number of a slot's shape, if it has one.
fn entry(numbers: &[Option<u32>], slot: u32) -> Option<u32>
    ensures { result ≡ slice_index_or numbers.now slot None }
{
    match numbers.get(slot as usize) {
        Some(number) => *number,
        None => None,
    }
}

// The number of the shape of a place, if it has one; it costs the stars.
fn number_of(table: &ShapeTable, numbers: &[Option<u32>], u: Lval) -> Option<u32>
    requires numbers { AreNumbers table.now numbers.now }
    ensures shape { shape_of_no table.now result ≡ place_shape (shapes_by table.now numbers.now) u }
    ensures here { IsNumber table.now result }
{
    let mut number = entry(numbers, u.slot);
    'stars: for _ in 0..u.depth {
        number = table.inner(number?);
    }
    number
}

/// The number of a type's shape, which is there from now on; `None`: the type has no shape. After a refusal some of what
/// it is made of may be there.
pub fn add_type(
    table: &mut ShapeTable,
    numbers: &[Option<u32>],
    t: &Ty,
) -> Result<Option<u32>, NoMemory>
    requires numbers { AreNumbers table.old numbers.now }
    ensures shape { IfOk result (λ n. shape_of_no table.new n ≡ kind_shape (place_shape (shapes_by table.old numbers.now)) (kind_of t.now)) }
    ensures here { IfOk result (λ n. IsNumber table.new n) }
    ensures kept { Keeps table.old table.new }
{
    match t {
        Ty::Unit => Ok(Some(table.add_owned(&O::Unit)?)),
        Ty::Int => Ok(Some(table.add_owned(&O::Int)?)),
        Ty::Box(o) => add_around(table, o, Sort::Box),
        Ty::Mutex(o) => add_around(table, o, Sort::Mutex),
        Ty::Task(o) => add_around(table, o, Sort::Task),
        Ty::View(o) => add_around(table, o, Sort::Shared),
        Ty::Shared(us) => add_reference(table, numbers, us.as_slice()[0], Sort::Shared),
        Ty::Mut(us) => add_reference(table, numbers, us.as_slice()[0], Sort::Mut),
    }
}

// The number of the shape of this sort that is made of an owned type's.
fn add_around(table: &mut ShapeTable, o: &O, sort: Sort) -> Result<Option<u32>, NoMemory>
    requires makes { IsSome (wrapped sort (owned_shape (owned_of o.now))) }
    ensures shape { IfOk result (λ n. shape_of_no table.new n ≡ wrapped sort (owned_shape (owned_of o.now))) }
    ensures here { IfOk result (λ n. IsNumber table.new n) }
    ensures kept { Keeps table.old table.new }
{
    let inner = table.add_owned(o)?;
    Ok(Some(table.hold(inner, sort)?))
}

// The number of the shape of a reference of this sort to the place, if the place has a shape.
fn add_reference(
    table: &mut ShapeTable,
    numbers: &[Option<u32>],
    u: Lval,
    sort: Sort,
) -> Result<Option<u32>, NoMemory>
    requires numbers { AreNumbers table.old numbers.now }
    requires makes { (s : Shape) → IsSome (wrapped sort s) }
    ensures shape { IfOk result (λ n. shape_of_no table.new n ≡ wrapped_in (place_shape (shapes_by table.old numbers.now) u) sort) }
    ensures here { IfOk result (λ n. IsNumber table.new n) }
    ensures kept { Keeps table.old table.new }
{
    match number_of(table, numbers, u) {
        Some(inner) => Ok(Some(table.hold(inner, sort)?)),
        None => Ok(None),
    }
}

/// The same for a part.
pub fn add_part(
    table: &mut ShapeTable,
    numbers: &[Option<u32>],
    part: &Part,
) -> Result<Option<u32>, NoMemory>
    requires numbers { AreNumbers table.old numbers.now }
    ensures shape { IfOk result (λ n. shape_of_no table.new n ≡ piece_shape (place_shape (shapes_by table.old numbers.now)) (piece_of part.now)) }
    ensures here { IfOk result (λ n. IsNumber table.new n) }
    ensures kept { Keeps table.old table.new }
{
    match part {
        Part::Whole(t) | Part::Gone(t) => add_type(table, numbers, t),
        Part::Box(p) => match add_part(table, numbers, p)? {
            Some(no) if table.is_owned(no) => Ok(Some(table.hold(no, Sort::Box)?)),
            _ => Ok(None),
        },
    }
}

/// Whether both places have a shape, and the same one; it costs their stars.
pub fn same_places(table: &ShapeTable, numbers: &[Option<u32>], u: Lval, v: Lval) -> bool
    requires numbers { AreNumbers table.now numbers.now }
    ensures { result ≡ equal_shapes (place_shape (shapes_by table.now numbers.now) u) (place_shape (shapes_by table.now numbers.now) v) }
{
    table.same(number_of(table, numbers, u), number_of(table, numbers, v))
}

// Whether the place has the shape of an owned type.
fn is_of(table: &ShapeTable, numbers: &[Option<u32>], u: Lval, o: &O) -> bool
    requires numbers { AreNumbers table.now numbers.now }
    ensures { result ≡ equal_shapes (place_shape (shapes_by table.now numbers.now) u) (Some (owned_shape (owned_of o.now))) }
{
    table.is_of(number_of(table, numbers, u), o)
}

/// Whether both types have a shape, and the same one; it costs the stars of two places, or the levels of an owned type.
pub fn same_types(table: &ShapeTable, numbers: &[Option<u32>], a: &Ty, b: &Ty) -> bool
    requires numbers { AreNumbers table.now numbers.now }
    ensures { result ≡ equal_shapes (kind_shape (place_shape (shapes_by table.now numbers.now)) (kind_of a.now)) (kind_shape (place_shape (shapes_by table.now numbers.now)) (kind_of b.now)) }
{
    match (a, b) {
        (Ty::Shared(us), Ty::Shared(vs)) => {
            same_places(table, numbers, us.as_slice()[0], vs.as_slice()[0])
        }
        (Ty::Mut(us), Ty::Mut(vs)) => {
            same_places(table, numbers, us.as_slice()[0], vs.as_slice()[0])
        }
        (Ty::Shared(us), Ty::View(o)) => is_of(table, numbers, us.as_slice()[0], o),
        (Ty::View(o), Ty::Shared(us)) => is_of(table, numbers, us.as_slice()[0], o),
        (Ty::View(o), Ty::View(q)) => same_owned(o, q),
        _ => same_type(a, b),
    }
}

/// Whether a part and a type have a shape, and the same one; it costs their levels, or as `same_types`.
pub fn fits(table: &ShapeTable, numbers: &[Option<u32>], part: &Part, t: &Ty) -> bool
    requires numbers { AreNumbers table.now numbers.now }
    ensures { result ≡ equal_shapes (piece_shape (place_shape (shapes_by table.now numbers.now)) (piece_of part.now)) (kind_shape (place_shape (shapes_by table.now numbers.now)) (kind_of t.now)) }
{
    match part {
        Part::Whole(u) | Part::Gone(u) => same_types(table, numbers, u, t),
        Part::Box(p) => match t {
            Ty::Box(o) => holds(p, o),
            _ => false,
        },
    }
}

/// Whether both parts have a shape, and the same one.
pub fn same_parts(table: &ShapeTable, numbers: &[Option<u32>], p: &Part, q: &Part) -> bool
    requires numbers { AreNumbers table.now numbers.now }
    ensures { result ≡ equal_shapes (piece_shape (place_shape (shapes_by table.now numbers.now)) (piece_of p.now)) (piece_shape (place_shape (shapes_by table.now numbers.now)) (piece_of q.now)) }
{
    match (p, q) {
        (p, Part::Whole(t) | Part::Gone(t)) => fits(table, numbers, p, t),
        (Part::Whole(t), q) => fits(table, numbers, q, t),
        (Part::Gone(t), q) => fits(table, numbers, q, t),
        (Part::Box(p), Part::Box(q)) => is_owned_part(p) && same_parts(table, numbers, p, q),
    }
}

// Whether the part has the shape of an owned type.
fn holds(part: &Part, o: &O) -> bool
    ensures { (look : Lval → Option Shape) → result ≡ equal_shapes (piece_shape look (piece_of part.now)) (Some (owned_shape (owned_of o.now))) }
{
    match (part, o) {
        (Part::Whole(t) | Part::Gone(t), o) => is_type(t, o),
        (Part::Box(p), O::Box(o)) => holds(p, o),
        _ => false,
    }
}

/// Whether the part has the shape of some owned type.
pub fn is_owned_part(part: &Part) -> bool
    ensures { (look : Lval → Option Shape) → result ≡ is_owned_shape (piece_shape look (piece_of part.now)) }
{
    match part {
        Part::Whole(t) | Part::Gone(t) => is_owned(t),
        Part::Box(p) => is_owned_part(p),
    }
}
