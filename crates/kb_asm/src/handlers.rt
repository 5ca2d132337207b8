//! The handler table of a body.

ghost use Rattle.std.specs.Prelude.{◌≡◌, None, Some, [], true, false, IsTrue, IfOk, OnOk};
ghost use Rattle.std.specs.List.{AllZip};
ghost use Rattle.kb_asm_body.specs.Faults.{is_missing, fault_from};
ghost use Rattle.kb_asm_pool.specs.Needs.{caught_needs, line_needs};
ghost use Rattle.kb_asm_pool.specs.Entries.{entries_of};
ghost use Rattle.kb_asm.specs.Needs.{have, have_all, IsWhole};
ghost use Rattle.kb_asm.specs.Parts.{parts};
ghost use Rattle.kb_asm.specs.Class.{handler_in, IsCaught, IsHandlerOf};
ghost use Rattle.kb_asm.specs.Working.{labels_of, Agree, AreNear, IsLabelled, IsLabelledLine};

use crate::NoMemory;
use crate::instr::Body;
use crate::numbers::of_class;
use crate::parts::push_part;
use kb_asm_pool::Items;
use kb_asm_text::{BodyLine, Catch, Line};
use kb_classfile::Handler;
use kb_names::Name;
use kb_rows::Row;
use std::alloc::Global;

/// The number of the class that is caught, or 0 for any.
fn caught(pool: &mut Items, alloc: Global, class: &Option<Name>) -> Result<u16, NoMemory>
    requires whole { IsWhole pool.old.says }
    requires there { IsTrue (have pool.old.says (caught_needs class.now)) }
    ensures same { OnOk result (pool.new.says ≡ pool.old.says) }
    ensures number { IfOk result (IsCaught (entries_of pool.old.says) class.now) }
{
    match class {
        Some(name) => of_class(pool, alloc, name.as_slice()),
        None => Ok(0),
    }
}

impl Body<'_> {
    /// Where a label leads, in two bytes.
    fn near(&self, label: &Name) -> u16
        requires near { AreNear (labels_of self.now.layout.now) }
        requires there { is_missing (labels_of self.now.layout.now) true label.now ≡ false }
        ensures { labels_of self.now.layout.now label.now ≡ Some result }
    {
        self.to(label) as u16
    }

    fn handler(&self, pool: &mut Items, alloc: Global, row: &Catch) -> Result<Handler, NoMemory>
        requires near { AreNear (labels_of self.now.layout.now) }
        requires labelled { IsLabelled (labels_of self.now.layout.now) row.now }
        requires whole { IsWhole pool.old.says }
        requires there { IsTrue (have pool.old.says (caught_needs row.now.class)) }
        ensures same { OnOk result (pool.new.says ≡ pool.old.says) }
        ensures handler { IfOk result (IsHandlerOf (entries_of pool.old.says) (labels_of self.now.layout.now) row.now) }
    {
        let start = self.near(&row.start);
        let end = self.near(&row.end);
        let target = self.near(&row.target);
        let catch = caught(pool, alloc, &row.class)?;
        Ok(Handler {
            start,
            end,
            target,
            catch,
        })
    }

    /// The handler, if the line is one.
    fn handler_in(
        &self,
        pool: &mut Items,
        alloc: Global,
        line: &Line,
    ) -> Result<Option<Handler>, NoMemory>
        requires near { AreNear (labels_of self.now.layout.now) }
        requires labelled { IsLabelledLine (labels_of self.now.layout.now) line.now }
        requires whole { IsWhole pool.old.says }
        requires there { IsTrue (have pool.old.says (line_needs line.now)) }
        ensures same { OnOk result (pool.new.says ≡ pool.old.says) }
        ensures handler { IfOk result (Agree (IsHandlerOf (entries_of pool.old.says) (labels_of self.now.layout.now)) (handler_in line.now [])) }
    {
        match line {
            Line::Body(BodyLine::Catch(row)) => Ok(Some(self.handler(pool, alloc, row)?)),
            _ => Ok(None),
        }
    }

    /// The handlers, in the order of their lines.
    pub(crate) fn handlers(
        &self,
        pool: &mut Items,
        alloc: Global,
        lines: &[Line],
    ) -> Result<Row<Handler>, NoMemory>
        requires near { AreNear (labels_of self.now.layout.now) }
        requires sound { fault_from (labels_of self.now.layout.now) true 0 0 lines.now ≡ None }
        requires whole { IsWhole pool.old.says }
        requires there { IsTrue (have_all pool.old.says lines.now) }
        ensures same { OnOk result (pool.new.says ≡ pool.old.says) }
        ensures handlers { IfOk result (AllZip (IsHandlerOf (entries_of pool.old.says) (labels_of self.now.layout.now)) (parts handler_in lines.now)) }
    {
        let mut handlers = Row::new(alloc);
        let mut rest = lines;
        while let [line, others @ ..] = rest {
            let handler = self.handler_in(pool, alloc, line)?;
            push_part(&mut handlers, handler)?;
            rest = others;
        }
        Ok(handlers)
    }
}
