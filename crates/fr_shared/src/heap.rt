//! The objects of all threads, and what goes last with a dropped value.

ghost use Rattle.std.specs.Prelude.{◌≡◌, ◌+◌, ◌<◌, ◌≤◌, ◌==◌, [], ◌∷◌, Some, None, IfOk, OnOk, OnErr, IsSome, IsTrue};
ghost use Rattle.fr_plain.specs.Heap.{cell_at, with_cell, next_object, with_object, dropped, live, last_link};
ghost use Rattle.fr_shared.specs.Releases.{released_of};

use crate::objects::Objects;
use crate::places::Places;
use fr_base::{MutexNo, NoMemory, ObjNo, Plain, ThreadNo};
use std::alloc::Global;
use std::marker::Model;
use std::mem;

/// The objects that each thread has made, those of one thread after those of another. The threads stand in the order in which they first
/// made something. An object that was dropped keeps nothing. A look-up takes no time in the number of threads or objects.
/// Contracts see the one heap, and beside it the thread whose next object fits without memory.
#[derive(Drop)]
pub struct Heap {
    alloc: Global,
    places: Places,
    objects: Vec<Objects>,
    first: Objects,
    ready: Option<ThreadNo>,
}

impl Model for Heap {
    ghost use Rattle.fr_shared.specs.HeapRoom.{HeapRoom};
    ghost use Rattle.fr_shared.specs.HeapInside.{heap_view, IsHeap};

    ghost Value = { HeapRoom };

    ghost view = { heap_view };

    ghost invariant = { IsHeap };
}

/// What goes last with a dropped value, at the end of its boxes: nothing that others have a part in, the task of a thread, or
/// a share of a mutex.
#[derive(Clone, Copy)]
pub enum Released {
    Nothing,
    Task(ThreadNo),
    Share(MutexNo),
}

// What a value that is no box lets go.
fn released_in(value: &Plain) -> Released
    ensures { result ≡ released_of value.now }
{
    match value {
        Plain::Task(thread) => Released::Task(*thread),
        Plain::Mutex(mutex) => Released::Share(*mutex),
        Plain::Nothing => Released::Nothing,
        Plain::Unit => Released::Nothing,
        Plain::Int(_) => Released::Nothing,
        Plain::Box(_) => Released::Nothing,
    }
}

impl Heap {
    /// The main thread has made no object yet.
    pub fn new(alloc: Global) -> Result<Heap, NoMemory>
        ensures { IfOk result (λ h. h.heap ≡ record { thread = 0; cells = [] } ∷ []) }
    {
        let mut places = Places::new(alloc);
        places.reserve()?;
        places.add(ThreadNo::new(0, 0));
        let mut objects = Vec::new(alloc);
        objects.reserve(1)?;
        objects.push_reserved(Objects::new(alloc));
        Ok(Heap {
            alloc,
            places,
            objects,
            first: Objects::new(alloc),
            ready: None,
        })
    }

    // Whether the thread's next object is known to fit.
    fn is_ready(&self, thread: ThreadNo) -> bool
        ensures { IsTrue result → self.now.ready ≡ Some thread }
    {
        match self.ready {
            Some(ready) => ready == thread,
            None => false,
        }
    }

    /// Makes room for the next object of a thread; a refusal changes no object. Where there is room already, nothing is looked up.
    pub fn reserve(&mut self, thread: ThreadNo) -> Result<(), NoMemory>
        ensures heap { self.new.heap ≡ self.old.heap }
        ensures ready { OnOk result (self.new.ready ≡ Some thread) }
    {
        if self.is_ready(thread) {
            return Ok(());
        }
        self.ready = None;
        match self.places.at(thread) {
            Some(place) => {
                self.objects[place].reserve()?;
                self.ready = Some(thread);
                Ok(())
            }
            None => {
                self.places.reserve()?;
                self.objects.reserve(1)?;
                self.first.reserve()?;
                self.ready = Some(thread);
                Ok(())
            }
        }
    }

    /// The value of an object's cell, where the object lives.
    pub fn get(&self, object: &ObjNo) -> Option<Plain>
        ensures { result ≡ cell_at self.now.heap object.now }
    {
        match self.places.at(object.thread) {
            Some(place) => self.objects[place].get(object.count),
            None => None,
        }
    }

    /// Puts another value into a living object's cell, or nothing, which is dropping it.
    pub fn put(&mut self, object: &ObjNo, cell: Option<Plain>)
        requires lives { IsSome (cell_at self.old.heap object.now) }
        ensures { self.new.heap ≡ with_cell self.old.heap object.now cell }
    {
        self.ready = None;
        let Some(place) = self.places.at(object.thread) else {
            unreachable!()
        };
        let objects = &mut self.objects[place];
        objects.set(object.count, cell);
    }

    /// Makes an object of a thread with this value.
    pub fn make(&mut self, thread: ThreadNo, value: Plain) -> ObjNo
        requires { self.old.ready ≡ Some thread }
        ensures object { result ≡ next_object self.old.heap thread }
        ensures made { self.new.heap ≡ with_object self.old.heap thread value }
    {
        self.ready = None;
        let Some(place) = self.places.at(thread) else {
            let mut objects = mem::replace(&mut self.first, Objects::new(self.alloc));
            let count = objects.push(value);
            self.places.add(thread);
            self.objects.push_reserved(objects);
            return ObjNo { thread, count };
        };
        let objects = &mut self.objects[place];
        let count = objects.push(value);
        ObjNo { thread, count }
    }

    /// Drops a value: a box's object goes, and then the value that was in it. Gives what stood at the end of the boxes.
    /// Takes time in the boxes that go.
    pub fn drop_plain(&mut self, value: Plain) -> Released
        ensures heap { self.new.heap ≡ dropped self.old.heap value }
        ensures released { result ≡ released_of (last_link (live self.old.heap) self.old.heap value) }
    {
        let mut value = value;
        'links: while let Plain::Box(object) = value {
            match self.get(&object) {
                Some(inner) => {
                    self.put(&object, None);
                    value = inner;
                }
                None => return Released::Nothing,
            }
        }
        released_in(&value)
    }
}
