//! The objects of a picture that see and loc lines name, and whether each may still be found.
ghost use Rattle.std.specs.Prelude.{◌≡◌, ◌==◌, ◌↔◌, ◌-◌, ◌^◌, ◌≤◌, ◌<◌, IsTrue, IfOk, OnOk, true, suc};
ghost use Rattle.std.specs.Option.{option_copied};
ghost use Rattle.kb_classes.specs.World.{World as PlainWorld};
ghost use Rattle.kb_names.specs.declared.types.ExactType.{ExactType};
ghost use Rattle.kb_picture.specs.WellFormed.{HasElement};
ghost use Rattle.kb_picture.specs.declared.picture.Length.{Length};
ghost use Rattle.kb_report_known.specs.Fields.{has_field_at};
ghost use Rattle.kb_report_known.specs.Known.{IsShapeIn};
ghost use Rattle.kb_report_known.specs.Listing.{AreLeft, IsCount};
ghost use Rattle.kb_report_known.specs.declared.known.Shape.TheVariants.{Fields as ShapeFields};
ghost use Rattle.kb_report_known.specs.Counts.{AreEnough, NamedObjects, known_at, missing_below, no_objects, now_found, seen_more, with_argument, with_known, with_lead, with_line, with_object, with_waiting, SeesSlot, is_smaller};

use crate::NoMemory;
use crate::counting::Count;
use crate::fields::{FieldAt, Fields};
use crate::known::{Known, Shape};
use std::alloc::Global;
use std::collections::BTreeMap;
use std::collections::btree_map::Iter;
use std::marker::Model;

/// The objects that are named, by their numbers. Objects have the numbers below one above the greatest that is named, and each is
/// to be found in a slot of an argument or of a smaller object: what is known of them tells how many may still be. Contracts see
/// what is known of each object, and the counts.
#[derive(Drop)]
pub struct Objects {
    known: BTreeMap<u32, Known>,
    // One above the greatest number.
    count: u64,
    // How many of these objects are not found.
    missing: u64,
    // How many arguments are not seen.
    unseen: u64,
    // How many arguments are locations that have no line yet.
    waiting: u64,
}

impl Model for Objects {
    ghost use Rattle.kb_report_known.specs.Counts.{NamedObjects, found_among};
    ghost use Rattle.kb_report_known.specs.Listing.{IsKept};

    ghost Value = { NamedObjects };

    ghost view = { λ o. record { entries = o.known.entries; count = o.count; unseen = o.unseen; waiting = o.waiting } };

    ghost invariant = { λ o. IsKept (found_among o.known.entries) o.count o.missing };
}

impl Objects {
    /// No object is named, and none of so many arguments is seen.
    pub fn new(alloc: Global, arguments: usize) -> Objects
        ensures { result ≡ no_objects arguments }
    {
        Objects {
            known: BTreeMap::new(alloc),
            count: 0,
            missing: 0,
            unseen: arguments as u64,
            waiting: 0,
        }
    }

    /// How many objects there are, as far as they are named.
    pub fn count(&self) -> u64
        ensures { result ≡ self.now.count }
    {
        self.count
    }

    /// Whether each of them is found.
    pub fn are_found(&self) -> bool
        ensures { result ≡ (missing_below (known_at self.now) self.now.count == 0) }
    {
        self.missing == 0
    }

    /// What is known of an object's type.
    pub fn shape(&self, number: u32) -> Shape
        ensures { result ≡ (known_at self.now number).shape }
    {
        self.known(number).shape
    }

    // What is known of an object.
    fn known(&self, number: u32) -> Known
        ensures { result ≡ known_at self.now number }
    {
        match self.known.get(&number) {
            Some(known) => *known,
            None => Known::new(),
        }
    }

    /// An argument is seen.
    pub fn see_argument(&mut self)
        ensures { self.new ≡ with_argument self.old }
    {
        self.unseen = self.unseen.saturating_sub(1);
    }

    /// A field of an object is seen; whether an object may have it with those that were named before.
    pub fn see_field(
        &mut self,
        fields: &Fields<'_>,
        object: u32,
        field: FieldAt,
    ) -> Result<bool, NoMemory>
        ensures { IfOk result (SeesSlot fields.now (λ (kind : ExactType) (length : Length). has_field_at fields.now kind field ≡ true) (IsShapeIn fields.now (ShapeFields field)) object self.old self.new) }
    {
        match self.shape(object).with_field(fields, field) {
            Some(shape) => self.see_slot(object, shape),
            None => Ok(false),
        }
    }

    /// An element of an array is seen; whether an object may have it with those that were named before.
    pub fn see_element(&mut self, array: u32, index: u32) -> Result<bool, NoMemory>
        ensures { (world : PlainWorld) → IfOk result (SeesSlot world (λ (kind : ExactType) (length : Length). HasElement length index) (Unit {0}) array self.old self.new) }
    {
        match self.shape(array).with_element(index) {
            Some(shape) => self.see_slot(array, shape),
            None => Ok(false),
        }
    }

    // One slot more of the object is seen.
    fn see_slot(&mut self, object: u32, shape: Shape) -> Result<bool, NoMemory>
        ensures seen { IfOk result (λ seen. seen ≡ true) }
        ensures known { OnOk result (self.new ≡ with_known self.old object (seen_more (known_at self.old object) shape)) }
    {
        let mut known = self.known(object);
        known.shape = shape;
        known.seen = next(known.seen)?;
        self.note(object, known)?;
        Ok(true)
    }

    /// The object is named: it is there, and so are all smaller ones.
    pub fn name(&mut self, number: u32)
        ensures { self.new ≡ with_object self.old number }
    {
        let count = u64::from(number) + 1;
        if count <= self.count {
            return;
        }
        self.missing = self.missing.saturating_add(count - self.count);
        self.count = count;
    }

    // So much is known of the object, which is named; it is found if it was.
    fn note(&mut self, number: u32, known: Known) -> Result<(), NoMemory>
        requires { known.is_found ≡ (known_at self.old number).is_found }
        ensures { OnOk result (self.new ≡ with_known self.old number known) }
    {
        self.name(number);
        self.known.insert(number, known)?;
        Ok(())
    }

    /// A slot of the holder, an object or else an argument, leads to the object: it is found if the holder is smaller.
    pub fn lead(&mut self, holder: Option<u32>, number: u32) -> Result<(), NoMemory>
        ensures { OnOk result (self.new ≡ with_lead self.old holder number) }
    {
        if !is_smaller(holder, number) {
            self.name(number);
            return Ok(());
        }
        self.find(number)
    }

    fn find(&mut self, number: u32) -> Result<(), NoMemory>
        ensures { OnOk result (self.new ≡ with_known self.old number (now_found (known_at self.old number))) }
    {
        let mut known = self.known(number);
        if known.is_found {
            return self.note(number, known);
        }
        known.is_found = true;
        self.name(number);
        self.known.insert(number, known)?;
        self.missing = self.missing.saturating_sub(1);
        Ok(())
    }

    /// A slot of the holder is a location, which has no line yet.
    pub fn wait(&mut self, holder: Option<u32>) -> Result<(), NoMemory>
        ensures { OnOk result (self.new ≡ with_waiting self.old holder) }
    {
        let Some(object) = holder else {
            self.waiting = next(self.waiting)?;
            return Ok(());
        };
        let mut known = self.known(object);
        known.waiting = next(known.waiting)?;
        self.note(object, known)
    }

    /// A location in a slot of the holder has its line.
    pub fn settle(&mut self, holder: Option<u32>) -> Result<(), NoMemory>
        ensures { OnOk result (self.new ≡ with_line self.old holder) }
    {
        let Some(object) = holder else {
            self.waiting = self.waiting.saturating_sub(1);
            return Ok(());
        };
        let mut known = self.known(object);
        known.waiting = known.waiting.saturating_sub(1);
        self.note(object, known)
    }

    /// Whether each object may still be found, in slots that are not seen and in locations; where the see lines are over, and no
    /// fields are given, in locations alone.
    pub fn may_be_found(&self, fields: Option<&Fields<'_>>) -> bool
        ensures { IsTrue result ↔ AreEnough (option_copied fields.entry) self.now }
    {
        if self.are_found() {
            return true;
        }
        let count = Count::of_arguments(self.waiting, self.unseen, fields);
        pass_all(self.known.iter(), count, self.count, fields)
    }
}

// Passes these objects, and those of which nothing is known, below the number; whether each may be found.
fn pass_all(
    entries: Iter<'_, u32, Known>,
    before: Count,
    number: u64,
    fields: Option<&Fields<'_>>,
) -> bool
    ensures { (objects : NamedObjects) → objects.count ≡ number → number ≤ 2 ^ 32 → AreLeft (known_at objects) number before.next entries.entry → before.next ≤ number → IsCount (option_copied fields.entry) objects before
        → IsTrue result ↔ AreEnough (option_copied fields.entry) objects }
{
    let mut count = before;
    let mut rest = entries;
    while let Some((object, known)) = rest.next() {
        if !count.pass_unnamed(u64::from(*object), fields) {
            return false;
        }
        if !count.pass(*known, fields) {
            return false;
        }
    }
    count.pass_unnamed(number, fields)
}

// One more; numbers of 64 bits that are spent count as out of memory.
fn next(number: u64) -> Result<u64, NoMemory>
    ensures { IfOk result (λ after. after ≡ suc number) }
{
    match number.checked_add(1) {
        Some(after) => Ok(after),
        None => Err(NoMemory),
    }
}

// Whether the holder is an argument or a smaller object.
fn is_smaller(holder: Option<u32>, number: u32) -> bool
    ensures { result ≡ is_smaller holder number }
{
    match holder {
        None => true,
        Some(holder) => holder < number,
    }
}
