//! Numbers for shapes.

ghost use Rattle.std.specs.Prelude.{◌≡◌, ◌<◌, [], length, Option, IsSome, IfOk, OnOk, OnErr, Some};
ghost use Rattle.fr_typing.specs.Kinds.{unit, int};
ghost use Rattle.fr_typing.specs.Places.{Shape, owned_shape, star_shape, equal_shapes};
ghost use Rattle.fr_types.specs.OwnedTypes.{owned_of};
ghost use Rattle.fr_types.specs.ShapeTables.{shape_no, shape_of_no, number_in, number_at, wrapped_in, wrapped_no, is_owned_shape, with_shape, IsNumber, AreDifferent, Keeps};

use crate::shape_node::{Made, ShapeNode, Sort};
use crate::types::O;
use fr_base::NoMemory;
use std::alloc::Global;
use std::marker::Model;

/// Different shapes, each with a number: first unit and int, then shapes that are made of others there. So two numbers are
/// equal exactly where their shapes are. Contracts see the shapes, the last one first.
#[derive(Debug, Drop)]
pub struct ShapeTable {
    nodes: Vec<ShapeNode>,
}

impl Model for ShapeTable {
    ghost use Rattle.std.specs.Prelude.{List};
    ghost use Rattle.fr_typing.specs.Places.{Shape};
    ghost use Rattle.fr_types.specs.ShapeCodes.{shapes_code};
    ghost use Rattle.fr_types.specs.ShapeNodes.{shapes_of, IsTable};

    ghost Value = { List Shape };

    ghost coded = { shapes_code };

    ghost view = { λ t. shapes_of t.nodes.items };

    ghost invariant = { λ t. IsTable (shapes_of t.nodes.items) t.nodes.items };
}

impl ShapeTable {
    /// No shape.
    pub fn new(alloc: Global) -> ShapeTable
        ensures { result ≡ [] }
    {
        ShapeTable {
            nodes: Vec::new(alloc),
        }
    }

    /// How many shapes there are, at most 4,294,967,295; no two are equal.
    pub fn len(&self) -> u32
        ensures len { result ≡ length self.now }
        ensures different { AreDifferent self.now }
    {
        self.nodes.len() as u32
    }

    /// The number of the shape to which a star takes a shape: of what a box holds, or of what a reference is to. `None`:
    /// a star takes it nowhere.
    pub fn inner(&self, no: u32) -> Option<u32>
        requires here { no < length self.now }
        ensures shape { shape_of_no self.now result ≡ star_shape (shape_no self.now no) }
        ensures here { IsNumber self.now result }
    {
        self.nodes[no as usize].inner()
    }

    /// Whether the shape is that of an owned type.
    pub fn is_owned(&self, no: u32) -> bool
        requires here { no < length self.now }
        ensures { result ≡ is_owned_shape (shape_no self.now no) }
    {
        self.nodes[no as usize].is_owned()
    }

    /// The number of the shape of this sort that is made of the one with the number `inner`, found without a search.
    /// `None`: no number has it, or there is no such shape.
    pub fn find(&self, inner: u32, sort: Sort) -> Option<u32>
        ensures { result ≡ number_at self.now (wrapped_no self.now inner sort) }
    {
        let at = inner as usize;
        if at < self.nodes.len() {
            self.nodes[at].child(sort)
        } else {
            None
        }
    }

    /// The same, where the inner shape may have no number: then no shape that is made of it has one.
    pub fn around(&self, inner: Option<u32>, sort: Sort) -> Option<u32>
        ensures { (o : Option Shape) → inner ≡ number_at self.now o → result ≡ number_at self.now (wrapped_in o sort) }
    {
        let _ = &self.nodes;
        self.find(inner?, sort)
    }

    /// The number of the shape of this sort that is made of the one with the number `inner`; a new one where no number
    /// had it. Beside memory that is refused, `NoMemory` says that no number is left; it changes nothing.
    pub fn hold(&mut self, inner: u32, sort: Sort) -> Result<u32, NoMemory>
        requires makes { IsSome (wrapped_no self.old inner sort) }
        ensures number { IfOk result (λ n. shape_no self.new n ≡ wrapped_no self.old inner sort) }
        ensures here { IfOk result (λ n. n < length self.new) }
        ensures held { OnOk result (self.new ≡ with_shape self.old (wrapped_no self.old inner sort)) }
        ensures kept { Keeps self.old self.new }
        ensures refused { OnErr result (self.new ≡ self.old) }
    {
        let at = inner as usize;
        if let Some(no) = self.nodes[at].child(sort) {
            return Ok(no);
        }
        if self.nodes.len() >= u32::MAX as usize {
            return Err(NoMemory);
        }
        let no = self.nodes.len() as u32;
        self.nodes.push(ShapeNode::new(Made::Around(sort, inner)))?;
        self.nodes[at].note(sort, no);
        Ok(no)
    }

    /// The number of an owned type's shape; it costs the type's levels. `None`: no number has it.
    pub fn number_of(&self, o: &O) -> Option<u32>
        ensures { result ≡ number_in self.now (owned_shape (owned_of o.now)) }
    {
        if self.nodes.is_empty() {
            return None;
        }
        match o {
            O::Unit => Some(0),
            O::Int => Some(1),
            O::Box(o) => self.around(self.number_of(o), Sort::Box),
            O::Mutex(o) => self.around(self.number_of(o), Sort::Mutex),
            O::Task(o) => self.around(self.number_of(o), Sort::Task),
        }
    }

    /// The number of an owned type's shape, which is there from now on; it costs the type's levels. After a refusal some
    /// of its parts may be there; no number has another shape.
    pub fn add_owned(&mut self, o: &O) -> Result<u32, NoMemory>
        ensures number { IfOk result (λ n. shape_no self.new n ≡ Some (owned_shape (owned_of o.now))) }
        ensures here { IfOk result (λ n. n < length self.new) }
        ensures kept { Keeps self.old self.new }
    {
        self.begin()?;
        let (inner, sort) = match o {
            O::Unit => return Ok(0),
            O::Int => return Ok(1),
            O::Box(o) => (o, Sort::Box),
            O::Mutex(o) => (o, Sort::Mutex),
            O::Task(o) => (o, Sort::Task),
        };
        let no = self.add_owned(inner)?;
        self.hold(no, sort)
    }

    /// Whether both have a shape, and the same one.
    pub fn same(&self, m: Option<u32>, n: Option<u32>) -> bool
        requires here { IsNumber self.now m }
        ensures { result ≡ equal_shapes (shape_of_no self.now m) (shape_of_no self.now n) }
    {
        let _ = &self.nodes;
        match (m, n) {
            (Some(m), Some(n)) => m == n,
            _ => false,
        }
    }

    /// Whether it has the shape of the owned type; it costs the type's levels.
    pub fn is_of(&self, m: Option<u32>, o: &O) -> bool
        requires here { IsNumber self.now m }
        ensures { result ≡ equal_shapes (shape_of_no self.now m) (Some (owned_shape (owned_of o.now))) }
    {
        self.same(m, self.number_of(o))
    }

    // The shapes of unit and of int are there from now on.
    fn begin(&mut self) -> Result<(), NoMemory>
        ensures unit { OnOk result (shape_no self.new 0 ≡ Some (owned_shape unit)) }
        ensures int { OnOk result (shape_no self.new 1 ≡ Some (owned_shape int)) }
        ensures kept { Keeps self.old self.new }
    {
        if !self.nodes.is_empty() {
            return Ok(());
        }
        self.nodes.reserve(2)?;
        self.nodes.push_reserved(ShapeNode::new(Made::Unit));
        self.nodes.push_reserved(ShapeNode::new(Made::Int));
        Ok(())
    }

    /// An equal table.
    pub fn copy(&self) -> Result<ShapeTable, NoMemory>
        ensures { IfOk result (λ t. t ≡ self.now) }
    {
        Ok(ShapeTable {
            nodes: self.nodes.clone()?,
        })
    }
}
