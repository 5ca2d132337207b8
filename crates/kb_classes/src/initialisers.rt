//! Classes that are initialised by code.
ghost use Rattle.std.specs.Prelude.{◌≡◌, map, false, IfOk};
ghost use Rattle.std.specs.List.{list_any};
ghost use Rattle.kb_classes.specs.Initialisers.{is_initialiser, declares_initialiser, has_initialiser, is_marked};

use crate::classes::Classes;
use crate::items::item_at;
use kb_class::{LoadedClass, MethodInfo};
use kb_names::{NoMemory, Row};
use std::alloc::Global;

/// For each class, by its chain, whether it or a superclass of it declares an initialiser.
pub fn initialised_of(
    alloc: Global,
    classes: &Classes,
    chains: &[Row<u32>],
) -> Result<Vec<bool>, NoMemory>
    ensures { IfOk result (λ marks. marks.items ≡ map (has_initialiser classes.now) chains.now) }
{
    let own = declaring_of(alloc, classes.as_slice())?;
    let mut marks = Vec::new(alloc);
    for chain in chains {
        marks.push(is_any_marked(own.as_slice(), chain.as_slice()))?;
    }
    Ok(marks)
}

// For each class whether it declares an initialiser.
fn declaring_of(alloc: Global, classes: &[LoadedClass]) -> Result<Vec<bool>, NoMemory>
    ensures { IfOk result (λ own. own.items ≡ map declares_initialiser classes.now) }
{
    let mut own = Vec::new(alloc);
    for class in classes {
        own.push(has_initialiser_among(class.methods()))?;
    }
    Ok(own)
}

fn has_initialiser_among(methods: &[MethodInfo]) -> bool
    ensures { result ≡ list_any is_initialiser methods.now }
{
    let mut rest = methods;
    while let [method, others @ ..] = rest {
        if is_initialiser(method) {
            return true;
        }
        rest = others;
    }
    false
}

fn is_initialiser(method: &MethodInfo) -> bool
    ensures { result ≡ is_initialiser method.now }
{
    method.name.as_slice() == b"<clinit>".as_slice()
}

// Whether one of these numbers is marked.
fn is_any_marked(marks: &[bool], numbers: &[u32]) -> bool
    ensures { result ≡ list_any (is_marked marks.now) numbers.now }
{
    let mut rest = numbers;
    while let [number, others @ ..] = rest {
        if is_marked(marks, *number) {
            return true;
        }
        rest = others;
    }
    false
}

fn is_marked(marks: &[bool], number: u32) -> bool
    ensures { result ≡ is_marked marks.now number }
{
    match item_at(marks, number) {
        Some(mark) => *mark,
        None => false,
    }
}
