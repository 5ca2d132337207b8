//! The chain of superclasses of each class.
ghost use Rattle.std.specs.Prelude.{◌≡◌, ◌<◌, Some, map, IfOk, IfErr};
ghost use Rattle.kb_classes.specs.World.{parent_in};
ghost use Rattle.kb_classes.specs.Subtypes.{direct_supers, AreChains};
ghost use Rattle.kb_classes.specs.Rules.{HaveNoCircle};
ghost use Rattle.kb_classes.specs.Refusals.{RefusesClasses};
ghost use Rattle.kb_link.specs.ChainWalks.{parent_at, walk};

use kb_class::LoadedClass;
use kb_classes::{Classes, LinkRefusal};
use kb_names::{NoMemory, Row};
use kb_order::Order;
use std::alloc::Global;

/// The chain of each class: its number, and those of its superclasses.
pub(crate) fn chains_of(
    alloc: Global,
    classes: &Classes,
    order: &Order,
) -> Result<Vec<Row<u32>>, LinkRefusal>
    requires { (order.now ≡ direct_supers classes.now) × HaveNoCircle classes.now }
    ensures chains { IfOk result (λ chains. AreChains classes.now chains.items) }
    ensures refused { IfErr result (RefusesClasses classes.now) }
{
    match all_chains(alloc, classes, order) {
        Ok(chains) => Ok(chains),
        Err(_) => Err(LinkRefusal::NoMemory),
    }
}

// Each chain is walked up from its class. It has no more numbers than stand above the class, and the class's own.
fn all_chains(alloc: Global, classes: &Classes, order: &Order) -> Result<Vec<Row<u32>>, NoMemory>
    requires { (order.now ≡ direct_supers classes.now) × HaveNoCircle classes.now }
    ensures { IfOk result (λ chains. AreChains classes.now chains.items) }
{
    let parents = parents_of(alloc, classes)?;
    let mut chains = Vec::new(alloc);
    for number in 0..order.len() as u32 {
        let chain = chain_from(alloc, parents.as_slice(), number, order.rank(number) + 1)?;
        chains.push(chain)?;
    }
    Ok(chains)
}

// The number of each class's superclass.
fn parents_of(alloc: Global, classes: &Classes) -> Result<Vec<Option<u32>>, NoMemory>
    ensures { IfOk result (λ parents. parents.items ≡ map (parent_in classes.now) classes.now) }
{
    let mut parents = Vec::new(alloc);
    for class in classes.as_slice() {
        parents.push(parent_of(classes, class))?;
    }
    Ok(parents)
}

fn parent_of(classes: &Classes, class: &LoadedClass) -> Option<u32>
    ensures { result ≡ parent_in classes.now class.now }
{
    classes.number_of(class.parent()?.as_slice())
}

// The numbers from one on, each before that of its superclass, so many at most.
fn chain_from(
    alloc: Global,
    parents: &[Option<u32>],
    number: u32,
    most: u32,
) -> Result<Row<u32>, NoMemory>
    ensures { IfOk result (λ chain. chain ≡ walk (parent_at parents.now) most (Some number)) }
{
    let mut chain = Row::new(alloc);
    let mut next = Some(number);
    for _ in 0..most {
        let Some(current) = next else {
            return Ok(chain);
        };
        chain.push(current)?;
        next = parent_at(parents, current);
    }
    Ok(chain)
}

fn parent_at(parents: &[Option<u32>], number: u32) -> Option<u32>
    ensures { result ≡ parent_at parents.now number }
{
    *parents.get(number as usize)?
}
