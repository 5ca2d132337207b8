//! In which clauses each literal stands.

ghost use Rattle.std.specs.Prelude.{◌≡◌, ◌+◌, ◌*◌, ◌<◌, ◌≤◌, [], ◌∷◌, ◌++◌, List, length, OnOk, IfOk};
ghost use Rattle.kb_chain.specs.Literal.{Literal};
ghost use Rattle.kb_chain.specs.Working.{AreWithin};
ghost use Rattle.kb_chain.specs.Index.{IsIndexed};

use crate::NoMemory;
use crate::clause::Clause;
use kb_rows::Row;
use std::alloc::Global;

/// Where the literals of numbered clauses stand.
#[derive(Drop)]
pub(crate) struct Index {
    /// By a literal's place, the numbers of the clauses that have it.
    pub(crate) occurrences: Vec<Row<u32>>,
}

impl Index {
    /// The index of no clauses over the variables up to `vars`.
    pub(crate) fn new(alloc: Global, vars: u32) -> Result<Index, NoMemory>
        ensures places { IfOk result (λ index. length index.occurrences.items ≡ 2 * vars + 2) }
        ensures indexed { IfOk result (IsIndexed []) }
    {
        let mut occurrences = Vec::new(alloc);
        for _place in 0..2 * vars as usize + 2 {
            occurrences.push(Row::new(alloc))?;
        }
        Ok(Index { occurrences })
    }

    /// Takes in one more clause, whose number is that of the clauses before it.
    pub(crate) fn add(&mut self, number: u32, clause: &Clause) -> Result<(), NoMemory>
        requires { AreWithin (length self.old.occurrences.items) clause.now }
        ensures indexed { OnOk result ((clauses : List (List Literal)) → number ≡ length clauses
            → IsIndexed clauses self.old → IsIndexed (clauses ++ clause.now ∷ []) self.new) }
        ensures places { length self.new.occurrences.items ≡ length self.old.occurrences.items }
    {
        for literal in clause.literals() {
            let numbers = &mut self.occurrences[literal.place()];
            numbers.push(number)?;
        }
        Ok(())
    }
}
