//! Occurrence lists: the clauses that have a literal, for variable elimination. Free: what they name is looked at again before
//! use.
use kb_chain::Lit;
use kb_propagate::{Base, Clauses, NoMemory, Trail};
use std::alloc::Global;

/// The numbers of the clauses that have a literal, by its place. Of those some may have been let go since.
#[derive(Drop)]
pub struct Occurrences {
    lists: Vec<Vec<u32>>,
}

impl Occurrences {
    /// The occurrences in the clauses that are awake and not true.
    pub fn new(alloc: Global, base: &Base<'_>) -> Result<Occurrences, NoMemory> {
        let mut occurrences = Occurrences::empty(alloc, base.trail.vars())?;
        for number in 0..base.clauses.len() {
            let literals = base.clauses.literals(number);
            if base.clauses.is_awake(number) && !is_true(&base.trail, literals) {
                occurrences.add(number, literals)?;
            }
        }
        Ok(occurrences)
    }

    fn empty(alloc: Global, vars: u32) -> Result<Occurrences, NoMemory> {
        let mut lists = Vec::new(alloc);
        for _place in 0..2 * vars as usize + 2 {
            lists.push(Vec::new(alloc))?;
        }
        Ok(Occurrences { lists })
    }

    /// The clauses with a literal.
    pub fn at(&self, literal: Lit) -> &[u32] {
        match self.lists.get(literal.place()) {
            Some(list) => list.as_slice(),
            None => &[],
        }
    }

    /// Whether there is a clause with a literal of its variable.
    pub fn has_variable(&self, literal: Lit) -> bool {
        !self.at(literal).is_empty() || !self.at(literal.negated()).is_empty()
    }

    /// Puts the clause of a number into the lists of its literals.
    pub fn add(&mut self, number: u32, literals: &[Lit]) -> Result<(), NoMemory> {
        for literal in literals {
            if let Some(list) = self.lists.get_mut(literal.place()) {
                list.push(number)?;
            }
        }
        Ok(())
    }

    /// Takes the clauses that were let go out of the list of a literal.
    pub fn prune(&mut self, clauses: &Clauses, literal: Lit) {
        if let Some(list) = self.lists.get_mut(literal.place()) {
            list.retain(|number| clauses.is_awake(*number));
        }
    }

    pub fn clear(&mut self, literal: Lit) {
        if let Some(list) = self.lists.get_mut(literal.place()) {
            list.clear();
        }
    }
}

/// Whether a literal of a clause is true.
fn is_true(trail: &Trail, literals: &[Lit]) -> bool {
    literals.iter().any(|literal| trail.is_true(*literal))
}
