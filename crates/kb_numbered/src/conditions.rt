//! Conditions on terms, and the truth of each term among them.
ghost use Rattle.std.specs.Prelude.{◌≡◌, [], IfOk, OnOk, OnErr};
ghost use Rattle.kb_numbered.specs.Conditions.{truth_among, with_condition};

use crate::NoMemory;
use indexmap::IndexMap;
use kb_rows::Row;
use kb_terms::TermId;
use std::alloc::Global;
use std::marker::Model;

/// Conditions, each a term with its truth, in the order in which they were met. A table tells the truth of a term, so that
/// no one walks the list. Contracts see the list.
#[derive(Drop)]
pub struct Conditions {
    list: Row<(TermId, bool)>,
    truths: IndexMap<TermId, bool>,
}

impl Model for Conditions {
    ghost use Rattle.std.specs.Prelude.{List, Bool, ◌≡◌};
    ghost use Rattle.kb_terms.specs.declared.node.TermId.{TermId};

    ghost Value = { List (TermId × Bool) };

    ghost view = { λ c. c.list };

    ghost invariant = { λ c. c.truths.entries ≡ c.list };
}

impl Conditions {
    /// No conditions. It takes no memory.
    pub fn new(alloc: Global) -> Conditions
        ensures { result ≡ [] }
    {
        Conditions {
            list: Row::new(alloc),
            truths: IndexMap::new(alloc),
        }
    }

    /// The conditions, in their order.
    pub fn as_slice(&self) -> &[(TermId, bool)]
        ensures { result.now ≡ self.now }
    {
        self.list.as_slice()
    }

    /// The truth that a term has among the conditions, in constant time.
    pub fn truth_of(&self, term: TermId) -> Option<bool>
        ensures { result ≡ truth_among self.now term }
    {
        let truth = self.truths.get(&term)?;
        Some(*truth)
    }

    /// Adds a condition, unless its term stands among the conditions.
    pub fn add(&mut self, term: TermId, truth: bool) -> Result<(), NoMemory>
        ensures ok { OnOk result (self.new ≡ with_condition self.old term truth) }
        ensures err { OnErr result (self.new ≡ self.old) }
    {
        if self.truths.contains_key(&term) {
            return Ok(());
        }
        self.truths.reserve(1)?;
        self.list.push((term, truth))?;
        self.truths.insert(term, truth).unwrap();
        Ok(())
    }

    /// Other conditions that equal these.
    pub fn copied(&self, alloc: Global) -> Result<Conditions, NoMemory>
        ensures { IfOk result (λ copy. copy ≡ self.now) }
    {
        let list = self.list.as_slice().to_vec(alloc)?;
        let truths = self.truths.clone()?;
        Ok(Conditions {
            list: Row::from_vec(list),
            truths,
        })
    }
}
