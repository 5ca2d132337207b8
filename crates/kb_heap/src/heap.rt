//! Heaps and what they hold.
ghost use Rattle.std.specs.Prelude.{◌≡◌, ◌↔◌, [], ◌∷◌, ◌++◌, Some, length, IfOk, IfErr, IsTrue};
ghost use Rattle.kb_heap.specs.Heap.{IsPlace, value_at, with_value, with_object, literal};

use crate::{NoMemory, Row};
use kb_names::{ExactType, Name, Same, are_same};
use std::alloc::Global;

/// A value: every one is of category 1 (JVMS 8 section 2.11.1).
#[derive(Clone, Copy, PartialEq, Eq)]
pub enum Value {
    /// An int; a boolean is 0 or 1.
    Int(i32),
    Null,
    /// The object of that number.
    Ref(u32),
}

impl Same for Value {
    fn is_same_as(&self, other: &Value) -> bool {
        self == other
    }
}

// Another row of the same values.
fn copied_values(alloc: Global, values: &[Value]) -> Result<Row<Value>, NoMemory>
    ensures { IfOk result (λ copy. copy ≡ values.now) }
{
    match values.to_vec(alloc) {
        Ok(values) => Ok(Row::from_vec(values)),
        Err(_) => Err(NoMemory),
    }
}

/// An object: its exact type, and the value of each of its slots or elements, in order.
#[derive(Drop)]
pub struct Object {
    pub kind: ExactType,
    pub values: Row<Value>,
}

impl Object {
    /// The object that stands for a string literal. It has no slots: strings are opaque.
    pub fn literal(alloc: Global) -> Result<Object, NoMemory>
        ensures { IfOk result (λ object. object ≡ literal) }
    {
        let name = Name::from_slice(alloc, b"java/lang/String".as_slice())?;
        Ok(Object {
            kind: ExactType::Class(name),
            values: Row::new(alloc),
        })
    }

    /// Another object that equals this one.
    pub fn copied(&self, alloc: Global) -> Result<Object, NoMemory>
        ensures { IfOk result (λ copy. copy ≡ self.now) }
    {
        let kind = self.kind.copied(alloc)?;
        let values = copied_values(alloc, self.values.as_slice())?;
        Ok(Object { kind, values })
    }

    /// Whether they are of one exact type and have the same values.
    pub fn is_same(&self, other: &Object) -> bool
        ensures { IsTrue result ↔ (self.now ≡ other.now) }
    {
        if !self.kind.is_same(&other.kind) {
            return false;
        }
        are_same(self.values.as_slice(), other.values.as_slice())
    }
}

impl Same for Object {
    fn is_same_as(&self, other: &Object) -> bool {
        self.is_same(other)
    }
}

// Another row of equal objects.
fn copied_objects(alloc: Global, objects: &[Object]) -> Result<Row<Object>, NoMemory>
    ensures { IfOk result (λ copy. copy ≡ objects.now) }
{
    let mut copy = Row::new(alloc);
    for object in objects {
        copy.push(object.copied(alloc)?)?;
    }
    Ok(copy)
}

/// An object that found no room, handed back.
#[derive(Drop)]
pub struct HeapFull {
    pub object: Object,
}

/// The objects of a heap. An object's number is its place in the list, from 0.
#[derive(Drop)]
pub struct Heap {
    pub objects: Row<Object>,
}

impl Heap {
    /// The heap without objects.
    pub fn new(alloc: Global) -> Heap
        ensures { result.objects ≡ [] }
    {
        Heap {
            objects: Row::new(alloc),
        }
    }

    /// The value of that slot or element of that object, if there are such.
    pub fn find(&self, object: u32, slot: u32) -> Option<Value>
        ensures { result ≡ value_at self.now object slot }
    {
        let object = self.objects.as_slice().get(object as usize)?;
        object.values.as_slice().get(slot as usize).copied()
    }

    /// The value of that slot or element of that object. Both are numbered from 0.
    pub fn get(&self, object: u32, slot: u32) -> Value
        requires { IsPlace self.now object slot }
        ensures { value_at self.now object slot ≡ Some result }
    {
        let object = &self.objects.as_slice()[object as usize];
        object.values.as_slice()[slot as usize]
    }

    /// Puts that value in the place of the one that the slot or element has. It takes no memory.
    pub fn put(&mut self, object: u32, slot: u32, value: Value)
        requires { IsPlace self.old object slot }
        ensures { self.new ≡ with_value self.old object slot value }
    {
        let object = self.objects.item_mut(object as usize);
        object.values.set(slot as usize, value);
    }

    /// Adds an object and gives its number, which is how many there were. Where memory runs out it is handed
    /// back; more objects than a `u32` can number count as out of memory too.
    pub fn add(&mut self, object: Object) -> Result<u32, HeapFull>
        ensures added { IfOk result (λ number. (number ≡ length self.old.objects) × (self.new ≡ with_object self.old object)) }
        ensures full { IfErr result (λ full. (full.object ≡ object) × (self.new ≡ self.old)) }
    {
        let Ok(number) = u32::try_from(self.objects.as_slice().len()) else {
            return Err(HeapFull { object });
        };
        match self.objects.give(object) {
            Ok(()) => Ok(number),
            Err(object) => Err(HeapFull { object }),
        }
    }

    /// Another heap that equals this one.
    pub fn copied(&self, alloc: Global) -> Result<Heap, NoMemory>
        ensures { IfOk result (λ copy. copy ≡ self.now) }
    {
        let objects = copied_objects(alloc, self.objects.as_slice())?;
        Ok(Heap { objects })
    }

    /// Whether they have the same objects.
    pub fn is_same(&self, other: &Heap) -> bool
        ensures { IsTrue result ↔ (self.now ≡ other.now) }
    {
        are_same(self.objects.as_slice(), other.objects.as_slice())
    }
}

/// What a run begins with: the input objects, and the arguments with the receiver first.
#[derive(Drop)]
pub struct Input {
    pub heap: Heap,
    pub args: Row<Value>,
}

impl Input {
    /// Another input that equals this one.
    pub fn copied(&self, alloc: Global) -> Result<Input, NoMemory>
        ensures { IfOk result (λ copy. copy ≡ self.now) }
    {
        let heap = self.heap.copied(alloc)?;
        let args = copied_values(alloc, self.args.as_slice())?;
        Ok(Input { heap, args })
    }

    /// Whether they have the same heap and the same arguments.
    pub fn is_same(&self, other: &Input) -> bool
        ensures { IsTrue result ↔ (self.now ≡ other.now) }
    {
        if !self.heap.is_same(&other.heap) {
            return false;
        }
        are_same(self.args.as_slice(), other.args.as_slice())
    }
}
