//! Objects that a run makes.
ghost use Rattle.std.specs.Prelude.{◌≡◌, pos, length, map, replicate, IfOk, OnOk};
ghost use Rattle.kb_classes.specs.declared.slots.FieldSlot.{FieldSlot as PlainSlot};
ghost use Rattle.kb_terms.specs.Terms.{interned};
ghost use Rattle.kb_terms.specs.declared.node.Node.TheVariants.{Const};
ghost use Rattle.kb_frames.specs.Making.{default_sym, new_sym_array, new_sym_object, with_array, with_made};

use crate::NoMemory;
use crate::beginning::add_equal;
use crate::first_reads::numbered;
use crate::state::{SymObject, SymState};
use crate::value::SymValue;
use kb_heap::Value;
use kb_lookups::default_of;
use kb_names::{ExactType, JType};
use kb_rows::Row;
use kb_semantics::{FieldSlot, World};
use kb_terms::TermId;
use std::alloc::Global;

impl SymState {
    /// Adds an object of the class to those that the run has made, each slot with the default value of its type, and gives its
    /// number. After memory ran out the state is only dropped.
    pub fn make_object(&mut self, world: &World, class: &[u8]) -> Result<u32, NoMemory>
        ensures number { IfOk result (λ number. number ≡ length self.old.made) }
        ensures state { OnOk result (self.new ≡ with_made world.now self.old class.now) }
    {
        let alloc = self.alloc;
        let number = numbered(self.made.as_slice().len())?;
        let zero = self.zero()?;
        self.made.push(new_object(alloc, world, class, zero)?)?;
        Ok(number)
    }

    /// Adds an array of so many elements to the objects that the run has made, each element with the default value of the
    /// component, and gives its number. It takes time in proportion to the elements. After memory ran out the state is only
    /// dropped.
    pub fn make_array(&mut self, component: &JType, count: u32) -> Result<u32, NoMemory>
        ensures number { IfOk result (λ number. number ≡ length self.old.made) }
        ensures state { OnOk result (self.new ≡ with_array self.old component.now count) }
    {
        let alloc = self.alloc;
        let number = numbered(self.made.as_slice().len())?;
        let zero = self.zero()?;
        self.made.push(new_array(alloc, component, count, zero)?)?;
        Ok(number)
    }

    // The term of 0.
    fn zero(&mut self) -> Result<TermId, NoMemory>
        ensures term { IfOk result (λ t. t ≡ (interned self.old.nodes (Const (pos 0))).1) }
        ensures state { OnOk result (self.new ≡ record self.old { nodes = (interned self.old.nodes (Const (pos 0))).0 }) }
    {
        let term = self.pool.constant(0)?;
        Ok(term)
    }
}

// A new object of the class, whose name it shares.
fn new_object(
    alloc: Global,
    world: &World,
    class: &[u8],
    zero: TermId,
) -> Result<SymObject, NoMemory>
    ensures { IfOk result (λ object. object ≡ new_sym_object world.now class.now zero) }
{
    let name = world.shared_name(alloc, class)?;
    let values = default_values(alloc, world.slots_named(&name), zero)?;
    Ok(SymObject {
        kind: ExactType::Class(name),
        values,
    })
}

// A new array of so many elements.
fn new_array(
    alloc: Global,
    component: &JType,
    count: u32,
    zero: TermId,
) -> Result<SymObject, NoMemory>
    ensures { IfOk result (λ object. object ≡ new_sym_array component.now count zero) }
{
    let kind = component.copied(alloc)?;
    let values = equal_values(alloc, default_sym(component, zero), count as usize)?;
    Ok(SymObject {
        kind: ExactType::Array(kind),
        values,
    })
}

// So many equal values.
fn equal_values(alloc: Global, value: SymValue, count: usize) -> Result<Row<SymValue>, NoMemory>
    ensures { IfOk result (λ values. values ≡ replicate count value) }
{
    let mut values = Row::new(alloc);
    add_equal(count, value, &mut values)?;
    Ok(values)
}

// The default value of each slot.
fn default_values(
    alloc: Global,
    slots: &[FieldSlot],
    zero: TermId,
) -> Result<Row<SymValue>, NoMemory>
    ensures { IfOk result (λ values. values ≡ map (λ (slot : PlainSlot). default_sym zero slot.kind) slots.now) }
{
    let mut values = Row::new(alloc);
    for slot in slots {
        values.push(default_sym(&slot.kind, zero))?;
    }
    Ok(values)
}

// The default value of a slot of the type, the term of 0 standing for 0.
#[tactic(auto, using(crate::proofs::MakingLaws::default_null, crate::proofs::MakingLaws::default_int, crate::proofs::MakingLaws::default_object))]
fn default_sym(of: &JType, zero: TermId) -> SymValue
    ensures { result ≡ default_sym zero of.now }
{
    match default_of(of) {
        Value::Null => SymValue::Null,
        Value::Int(_) | Value::Ref(_) => SymValue::Int(zero),
    }
}
