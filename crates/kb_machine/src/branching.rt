//! Branches and switches (JVMS 8 section 6.5).

ghost use Rattle.std.specs.Prelude.{◌≡◌};
ghost use Rattle.kb_semantics.specs.Instructions.{goto, if_int, if_ints, if_null, if_same, switch};
ghost use Rattle.kb_semantics.specs.Comparisons.{table_keys};
ghost use Rattle.kb_machine.specs.Turns.{setting_of, config_of, told};

use crate::state::State;
use crate::turn::{Step, Turn};
use kb_code::Cond;
use kb_values::{holds, is_null, is_wanted, same_reference, switch_target, table_target};

impl State {
    /// ifeq, ifne, iflt, ifge, ifgt, ifle
    #[tactic(auto, unfolding(kb_semantics::specs::Instructions::if_int, kb_semantics::specs::Ways::goes_on, kb_semantics::specs::Ways::goes_to))]
    pub(crate) fn if_int(&mut self, turn: &Turn<'_>, cond: Cond, target: u32) -> Step
        ensures { told turn.now result self.new ≡ if_int cond target (setting_of turn.now) turn.now.next (config_of turn.now self.old) }
    {
        match self.frame.an_int() {
            Some(value) => self.branches(turn, target, holds(cond, value, 0)),
            None => self.ill_typed(),
        }
    }

    /// if_icmpeq, if_icmpne, if_icmplt, if_icmpge, if_icmpgt, if_icmple
    #[tactic(auto, unfolding(kb_semantics::specs::Instructions::if_ints, kb_semantics::specs::Ways::goes_on, kb_semantics::specs::Ways::goes_to))]
    pub(crate) fn if_ints(&mut self, turn: &Turn<'_>, cond: Cond, target: u32) -> Step
        ensures { told turn.now result self.new ≡ if_ints cond target (setting_of turn.now) turn.now.next (config_of turn.now self.old) }
    {
        match self.frame.two_ints() {
            Some((left, right)) => self.branches(turn, target, holds(cond, left, right)),
            None => self.ill_typed(),
        }
    }

    /// if_acmpeq, if_acmpne
    #[tactic(auto, unfolding(kb_semantics::specs::Instructions::if_same, kb_semantics::specs::Ways::goes_on, kb_semantics::specs::Ways::goes_to))]
    pub(crate) fn if_same(&mut self, turn: &Turn<'_>, want: bool, target: u32) -> Step
        ensures { told turn.now result self.new ≡ if_same want target (setting_of turn.now) turn.now.next (config_of turn.now self.old) }
    {
        match self.frame.two_references() {
            Some((left, right)) => {
                let so = is_wanted(want, same_reference(left, right));
                self.branches(turn, target, so)
            }
            None => self.ill_typed(),
        }
    }

    /// ifnull, ifnonnull
    #[tactic(auto, unfolding(kb_semantics::specs::Instructions::if_null, kb_semantics::specs::Ways::goes_on, kb_semantics::specs::Ways::goes_to))]
    pub(crate) fn if_null(&mut self, turn: &Turn<'_>, want: bool, target: u32) -> Step
        ensures { told turn.now result self.new ≡ if_null want target (setting_of turn.now) turn.now.next (config_of turn.now self.old) }
    {
        match self.frame.a_reference() {
            Some(value) => self.branches(turn, target, is_wanted(want, is_null(value))),
            None => self.ill_typed(),
        }
    }

    /// goto
    #[tactic(auto, unfolding(kb_semantics::specs::Instructions::goto))]
    pub(crate) fn goto(&mut self, turn: &Turn<'_>, target: u32) -> Step
        ensures { told turn.now result self.new ≡ goto target (setting_of turn.now) turn.now.next (config_of turn.now self.old) }
    {
        self.jumps(turn, target)
    }

    /// lookupswitch
    #[tactic(auto, unfolding(kb_semantics::specs::Instructions::switch, kb_semantics::specs::Ways::goes_to))]
    pub(crate) fn lookup_switch(
        &mut self,
        turn: &Turn<'_>,
        default: u32,
        keys: &[(i32, u32)],
    ) -> Step
        ensures { told turn.now result self.new ≡ switch keys.now default (setting_of turn.now) turn.now.next (config_of turn.now self.old) }
    {
        match self.frame.an_int() {
            Some(value) => self.jumps(turn, switch_target(value, keys, default)),
            None => self.ill_typed(),
        }
    }

    /// tableswitch
    #[tactic(auto, unfolding(kb_semantics::specs::Instructions::switch, kb_semantics::specs::Ways::goes_to))]
    pub(crate) fn table_switch(
        &mut self,
        turn: &Turn<'_>,
        low: i32,
        default: u32,
        targets: &[u32],
    ) -> Step
        ensures { told turn.now result self.new ≡ switch (table_keys low targets.now) default (setting_of turn.now) turn.now.next (config_of turn.now self.old) }
    {
        match self.frame.an_int() {
            Some(value) => self.jumps(turn, table_target(value, low, targets, default)),
            None => self.ill_typed(),
        }
    }
}
