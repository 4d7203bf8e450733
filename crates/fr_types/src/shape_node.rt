//! What a table of shapes keeps of one shape.

ghost use Rattle.std.specs.Prelude.{◌≡◌};
ghost use Rattle.fr_types.specs.ShapeNodes.{leaf, inner_of, is_owned_made, child_of, with_child};

/// How a shape is made of another one: an owned type that holds it, or a reference to it.
#[derive(Clone, Copy, Debug, PartialEq, Eq)]
pub enum Sort {
    Box,
    Mutex,
    Task,
    Shared,
    Mut,
}

/// What a shape is made of: nothing, or the shape of a number.
#[derive(Clone, Copy, Debug)]
pub enum Made {
    Unit,
    Int,
    Around(Sort, u32),
}

/// A shape: what it is made of, and the numbers of the shapes that are made of it, by their sort.
#[derive(Clone, Copy, Debug)]
pub struct ShapeNode {
    pub made: Made,
    pub boxed: Option<u32>,
    pub mutex: Option<u32>,
    pub task: Option<u32>,
    pub shared: Option<u32>,
    pub mutable: Option<u32>,
}

impl ShapeNode {
    /// A shape of which no other is made yet.
    pub fn new(made: Made) -> ShapeNode
        ensures { result ≡ leaf made }
    {
        ShapeNode {
            made,
            boxed: None,
            mutex: None,
            task: None,
            shared: None,
            mutable: None,
        }
    }

    /// The number of the shape to which a star takes it: a box to what it holds, a reference to what it is to.
    pub fn inner(&self) -> Option<u32>
        ensures { result ≡ inner_of self.now.made }
    {
        match self.made {
            Made::Around(Sort::Box | Sort::Shared | Sort::Mut, inner) => Some(inner),
            _ => None,
        }
    }

    /// Whether it is that of an owned type.
    pub fn is_owned(&self) -> bool
        ensures { result ≡ is_owned_made self.now.made }
    {
        match self.made {
            Made::Around(Sort::Shared | Sort::Mut, _) => false,
            _ => true,
        }
    }

    /// The number of the shape of this sort that is made of it, if there is one.
    pub fn child(&self, sort: Sort) -> Option<u32>
        ensures { result ≡ child_of self.now sort }
    {
        match sort {
            Sort::Box => self.boxed,
            Sort::Mutex => self.mutex,
            Sort::Task => self.task,
            Sort::Shared => self.shared,
            Sort::Mut => self.mutable,
        }
    }

    /// The shape of this sort that is made of it has this number.
    pub fn note(&mut self, sort: Sort, no: u32)
        ensures { self.new ≡ with_child self.old sort no }
    {
        match sort {
            Sort::Box => self.boxed = Some(no),
            Sort::Mutex => self.mutex = Some(no),
            Sort::Task => self.task = Some(no),
            Sort::Shared => self.shared = Some(no),
            Sort::Mut => self.mutable = Some(no),
        }
    }
}
