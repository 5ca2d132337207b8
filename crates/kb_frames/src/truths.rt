//! The truths of terms in a state.
ghost use Rattle.std.specs.Prelude.{◌≡◌, OnOk, OnErr};
ghost use Rattle.kb_terms.specs.Terms.{IsTerm};
ghost use Rattle.kb_frames.specs.Truths.{truth_in, conditioned};

use crate::NoMemory;
use crate::state::SymState;
use kb_terms::TermId;

impl SymState {
    /// The conditions, in the order in which they were met.
    pub fn conditions(&self) -> &[(TermId, bool)]
        ensures { result.now ≡ self.now.when }
    {
        self.when.as_slice()
    }

    /// The truth of a term, if it is decided: that of a constant, or the one that it has among the conditions. It takes
    /// constant time.
    pub fn truth_of(&self, term: TermId) -> Option<bool>
        requires { IsTerm self.now.nodes term }
        ensures { result ≡ truth_in self.now term }
    {
        match self.pool.is_const(term) {
            Some(value) => Some(value != 0),
            None => self.when.truth_of(term),
        }
    }

    /// Adds a condition, unless its term has a truth already. Refused only where memory runs out.
    pub fn add_condition(&mut self, term: TermId, truth: bool) -> Result<(), NoMemory>
        requires { IsTerm self.old.nodes term }
        ensures ok { OnOk result (self.new ≡ conditioned self.old term truth) }
        ensures err { OnErr result (self.new ≡ self.old) }
    {
        if self.truth_of(term).is_some() {
            return Ok(());
        }
        self.when.add(term, truth)
    }
}
