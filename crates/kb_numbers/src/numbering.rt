//! The numbers of the members of all classes.
ghost use Rattle.std.specs.Prelude.{◌≡◌, ◌+◌, ◌<◌, ◌^◌, Some, IfOk, IfSome, OnOk, length};
ghost use Rattle.std.specs.List.{AllByRecursion, AllZip};
ghost use Rattle.kb_numbers.specs.declared.pairs.Pair.{Pair as PlainPair};
ghost use Rattle.kb_texts.specs.Texts.{Keeps};
ghost use Rattle.kb_numbers.specs.Members.{entry_named, field_place, fields_at, method_number, method_pairs, method_place, methods_at, methods_of};
ghost use Rattle.kb_numbers.specs.Numbers.{AreNumbered, AreNumberedFrom, HasTexts, IsNumbered, IsPairOf};
ghost use Rattle.kb_numbers.specs.Typed.{AreEnds, IsTypedMethod};

use crate::class_numbers::ClassNumbers;
use crate::pairs::{EntryNumbers, Pair};
use crate::parts::text_number;
use crate::pool::given_numbers;
use crate::types::{Types, add_types};
use crate::written::written_numbers;
use kb_class::{LoadedClass, MethodInfo};
use kb_names::{MethodType, Name, NoMemory};
use kb_texts::Texts;
use std::alloc::Global;

/// Different texts, among them the names and descriptors of the members of some classes and all that the entries of their
/// constant pools name; the members of the classes by the numbers of these texts; and the types of their methods by their parts.
#[derive(Drop)]
pub struct Numbers {
    pub texts: Texts,
    pub classes: Vec<ClassNumbers>,
    pub types: Types,
}

/// The numbers of the members of these classes. Texts without numbers of 32 bits count as out of memory.
pub fn numbers_of(alloc: Global, classes: &[LoadedClass]) -> Result<Numbers, NoMemory>
    requires { AllByRecursion HasTexts classes.now }
    ensures { IfOk result (AreNumbered classes.now) }
{
    let mut texts = Texts::new(alloc);
    let numbers = number_all(alloc, classes, &mut texts)?;
    let types = types_of(alloc, classes, numbers.as_slice(), &mut texts)?;
    texts.tell_distinct();
    if texts.count() > u32::MAX as usize {
        return Err(NoMemory);
    }
    Ok(Numbers {
        texts,
        classes: numbers,
        types,
    })
}

// The numbers of the members of these classes; texts that have none are added.
fn number_all(
    alloc: Global,
    classes: &[LoadedClass],
    texts: &mut Texts,
) -> Result<Vec<ClassNumbers>, NoMemory>
    requires { AllByRecursion HasTexts classes.now }
    ensures { IfOk result (λ numbers. AreNumberedFrom texts.new 0 classes.now numbers.items) }
{
    let mut numbers = Vec::new(alloc);
    let mut first = 0;
    for class in classes {
        let next = number_behind(first, class.methods())?;
        let own = class_numbers(alloc, class, first, texts)?;
        numbers.push(own)?;
        first = next;
    }
    Ok(numbers)
}

// The types of the methods of these classes, whose members have these numbers.
fn types_of(
    alloc: Global,
    classes: &[LoadedClass],
    numbers: &[ClassNumbers],
    texts: &mut Texts,
) -> Result<Types, NoMemory>
    requires { AreNumberedFrom texts.old 0 classes.now numbers.now }
    ensures keeps { OnOk result (Keeps texts.old texts.new) }
    ensures typed { IfOk result (λ types. AllZip (IsTypedMethod texts.new types) (methods_of classes.now) (method_pairs numbers.now)) }
    ensures ends { IfOk result (AreEnds texts.new) }
{
    let mut types = Types::new(alloc);
    for (number, class) in classes.iter().enumerate() {
        let own = &numbers[number];
        add_types(alloc, class.methods(), own.methods(), &mut types, texts)?;
    }
    Ok(types)
}

// The number behind those of these methods. Methods without numbers of 32 bits count as out of memory.
fn number_behind(first: u32, methods: &[MethodInfo]) -> Result<u32, NoMemory>
    ensures { IfOk result (λ next. next ≡ first + length methods.now) }
{
    let Ok(count) = u32::try_from(methods.len()) else {
        return Err(NoMemory);
    };
    match first.checked_add(count) {
        Some(next) => Ok(next),
        None => Err(NoMemory),
    }
}

// The numbers of the members of a class whose first method has that number.
fn class_numbers(
    alloc: Global,
    class: &LoadedClass,
    first: u32,
    texts: &mut Texts,
) -> Result<ClassNumbers, NoMemory>
    requires { HasTexts class.now }
    ensures keeps { OnOk result (Keeps texts.old texts.new) }
    ensures numbers { IfOk result (IsNumbered texts.new first class.now) }
{
    match class.file() {
        Some(file) => given_numbers(alloc, file, first, texts),
        None => written_numbers(alloc, class.methods(), first, texts),
    }
}

impl Numbers {
    /// The pair of a name and of the type of a method, if both have numbers: looks into tables.
    pub fn pair_of(&self, name: &Name, kind: &MethodType) -> Option<Pair>
        requires { length self.now.texts < 2 ^ 32 }
        ensures found { IfSome result (IsPairOf self.now name.now kind.now) }
        ensures whole { (pair : PlainPair) → IsPairOf self.now name.now kind.now pair → result ≡ Some pair }
    {
        let name = text_number(&self.texts, name.as_slice())?;
        let kind = self.types.number_of(&self.texts, kind)?;
        Some(Pair { name, kind })
    }

    /// What an entry of a class names, if it names a member.
    pub fn entry(&self, class: u32, entry: u16) -> Option<EntryNumbers>
        ensures { result ≡ entry_named self.now.classes.items class entry }
    {
        match self.classes.get(class as usize) {
            Some(own) => own.entry(entry),
            None => None,
        }
    }

    /// The methods that a class declares, in file order.
    pub fn methods_at(&self, class: u32) -> &[Pair]
        ensures { result.now ≡ methods_at self.now.classes.items class }
    {
        match self.classes.get(class as usize) {
            Some(own) => own.methods(),
            None => &[],
        }
    }

    /// The fields that a class declares, in file order.
    pub fn fields_at(&self, class: u32) -> &[Pair]
        ensures { result.now ≡ fields_at self.now.classes.items class }
    {
        match self.classes.get(class as usize) {
            Some(own) => own.fields(),
            None => &[],
        }
    }

    /// The place of the method of that pair among those that a class declares.
    pub fn method_place(&self, class: u32, pair: Pair) -> Option<u32>
        ensures { result ≡ method_place self.now.classes.items class pair }
    {
        match self.classes.get(class as usize) {
            Some(own) => own.method_place(pair),
            None => None,
        }
    }

    /// The number of that method among the methods of all classes.
    pub fn method(&self, class: u32, pair: Pair) -> Option<u32>
        ensures { result ≡ method_number self.now.classes.items class pair }
    {
        match self.classes.get(class as usize) {
            Some(own) => own.method(pair),
            None => None,
        }
    }

    /// The place of the field of that pair among those that a class declares.
    pub fn field_place(&self, class: u32, pair: Pair) -> Option<u32>
        ensures { result ≡ field_place self.now.classes.items class pair }
    {
        match self.classes.get(class as usize) {
            Some(own) => own.field_place(pair),
            None => None,
        }
    }
}
