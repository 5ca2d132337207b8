//! The formula that rows ask about.

use crate::formulas::read_formula;
use crate::questions::append_of_itself;
use kb_chain::Formula;
use kb_questions::Subject;
use kb_rows::Held;
use kb_table::{RowResult, RowStop, read_number};
use std::alloc::Global;

/// The formula that the next row asks about.
#[derive(Drop)]
pub struct Asked {
    formula: Held<Formula>,
}

impl Asked {
    /// The formula over no variables that has no clauses.
    pub fn new(alloc: Global) -> RowResult<Asked> {
        let formula = Held::new(alloc, Formula::new(alloc, 0))?;
        Ok(Asked { formula })
    }
}

impl Subject for Asked {
    /// `formula`, a name and how many variables there are, and then the clauses.
    fn replace(
        &mut self,
        alloc: Global,
        name: &str,
        text: &str,
        into: &mut String,
    ) -> RowResult<()> {
        into.push_str(name)?;
        self.formula = formula_of(alloc, name, text)?;
        Ok(())
    }

    fn append_answer(
        &self,
        alloc: Global,
        question: &str,
        words: &str,
        into: &mut String,
    ) -> RowResult<()> {
        append_of_itself(alloc, self.formula.get(), question, words, into)
    }
}

fn formula_of(alloc: Global, name: &str, text: &str) -> RowResult<Held<Formula>> {
    let Some((_, vars)) = name.rsplit_once(' ') else {
        return Err(RowStop::Malformed);
    };
    let formula = read_formula(alloc, read_number(vars)?, text)?;
    Ok(Held::new(alloc, formula)?)
}
