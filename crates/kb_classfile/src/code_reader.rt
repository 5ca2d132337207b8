//! Attributes (JVMS 8 section 4.7): those that are skipped, and the Code attribute of a method.

ghost use Rattle.std.specs.Prelude.{◌≡◌, ◌+◌, ◌<◌, ◌^◌, length};
ghost use Rattle.kb_grammar.specs.Reading.{whole, telling};
ghost use Rattle.kb_classfile.specs.Reading.{catch};
ghost use Rattle.kb_classfile.specs.Reading.{Gives, content, skipped_attribute, skipped_attributes, instructions, handler, handlers, code_content, in_content, behind_items, code, code_attribute, named_attribute, method_attribute, method_attributes};

use crate::file::{Code, Handler, PoolEntry};
use crate::pool::{EntryKind, Reference, checked_index, is_text, utf8_in};
use crate::reader::Reader;
use crate::refusal::ClassRefusal;
use kb_rows::Row;
use std::alloc::Global;

/// The most bytes of code that a method has (JVMS 8 section 4.7.3).
const MOST_CODE: u32 = 65_535;

/// The code in the content of a Code attribute, all of it. `from` is the offset of its first byte.
fn code_of(
    alloc: Global,
    content: &[u8],
    from: usize,
    pool: &[PoolEntry],
) -> Result<Code, ClassRefusal>
    requires { from + length content.now < 2 ^ 63 }
    ensures { Gives (λ code. code) result (whole (behind_items from) (telling (in_content from) (code_content pool.now from)) content.now from) }
{
    let mut inside = Reader::new(content, from);
    let code = match inside.code_content(alloc, pool, from) {
        Ok(code) => code,
        Err(refusal) => return Err(in_content(from, refusal)),
    };
    if !inside.is_empty() {
        return Err(ClassRefusal::CodeLength(from));
    }
    Ok(code)
}

/// What a refusal of an item in the content of a Code attribute, which has the offset `from`, says of the file: an item
/// that is not whole is the content's own fault.
fn in_content(from: usize, refusal: ClassRefusal) -> ClassRefusal
    ensures { result ≡ in_content from refusal }
{
    match refusal {
        ClassRefusal::Short(_) => ClassRefusal::CodeLength(from),
        other => other,
    }
}

impl<'a> Reader<'a> {
    /// A content behind its length, which is not looked at.
    #[tactic(auto, unfolding(crate::specs::Reading::content))]
    fn content(&mut self) -> Result<(), ClassRefusal>
        ensures { Gives (λ _. (tt, self.new)) result (content self.old) }
    {
        let len = self.u4()?;
        self.run(len as usize)?;
        Ok(())
    }

    #[tactic(auto, unfolding(crate::specs::Reading::skipped_attribute))]
    fn skipped_attribute(&mut self, pool: &[PoolEntry]) -> Result<(), ClassRefusal>
        ensures { Gives (λ _. (tt, self.new)) result (skipped_attribute pool.now self.old) }
    {
        self.index_of(EntryKind::Text, pool)?;
        self.content()
    }

    /// Attributes that are skipped, behind their count.
    #[tactic(auto, unfolding(crate::specs::Reading::skipped_attributes))]
    pub fn skipped_attributes(&mut self, pool: &[PoolEntry]) -> Result<(), ClassRefusal>
        ensures { Gives (λ _. (tt, self.new)) result (skipped_attributes pool.now self.old) }
    {
        let count = self.u2()?;
        for _ in 0..count {
            self.skipped_attribute(pool)?;
        }
        Ok(())
    }

    /// The instructions of a method, behind their length, in the content that has the offset `from`.
    #[tactic(auto, unfolding(crate::specs::Reading::instructions))]
    fn instructions(&mut self, alloc: Global, from: usize) -> Result<Row<u8>, ClassRefusal>
        ensures { Gives (λ code. (code, self.new)) result (instructions from self.old) }
    {
        let len = self.u4()?;
        if len < 1 || MOST_CODE < len {
            return Err(ClassRefusal::CodeLength(from));
        }
        let code = self.run(len as usize)?;
        Ok(Row::from_vec(Vec::from_slice(alloc, code)?))
    }

    /// The class that a handler catches, or 0 for any.
    #[tactic(auto, unfolding(crate::specs::Reading::catch))]
    fn catch(&mut self, pool: &[PoolEntry]) -> Result<u16, ClassRefusal>
        ensures { Gives (λ index. (index, self.new)) result (catch pool.now self.old) }
    {
        let at = self.offset();
        let index = self.u2()?;
        if index == 0 {
            return Ok(index);
        }
        let kind = EntryKind::Class;
        checked_index(pool, Reference { at, index, kind })
    }

    /// A row of the handler table.
    #[tactic(auto, unfolding(crate::specs::Reading::handler, crate::specs::Reading::catch))]
    fn handler(&mut self, pool: &[PoolEntry]) -> Result<Handler, ClassRefusal>
        ensures { Gives (λ handler. (handler, self.new)) result (handler pool.now self.old) }
    {
        let start = self.u2()?;
        let end = self.u2()?;
        let target = self.u2()?;
        let catch = self.catch(pool)?;
        Ok(Handler {
            start,
            end,
            target,
            catch,
        })
    }

    /// The handler table, behind its count.
    #[tactic(auto, unfolding(crate::specs::Reading::handlers))]
    fn handlers(&mut self, alloc: Global, pool: &[PoolEntry]) -> Result<Row<Handler>, ClassRefusal>
        ensures { Gives (λ handlers. (handlers, self.new)) result (handlers pool.now self.old) }
    {
        let count = self.u2()?;
        let mut handlers = Vec::new(alloc);
        for _ in 0..count {
            handlers.push(self.handler(pool)?)?;
        }
        Ok(Row::from_vec(handlers))
    }

    /// What is in a Code attribute (JVMS 8 section 4.7.3) whose content has the offset `from`.
    #[tactic(auto, unfolding(crate::specs::Reading::code_content))]
    fn code_content(
        &mut self,
        alloc: Global,
        pool: &[PoolEntry],
        from: usize,
    ) -> Result<Code, ClassRefusal>
        ensures { Gives (λ code. (code, self.new)) result (code_content pool.now from self.old) }
    {
        let max_stack = self.u2()?;
        let max_locals = self.u2()?;
        let bytes = self.instructions(alloc, from)?;
        let handlers = self.handlers(alloc, pool)?;
        self.skipped_attributes(pool)?;
        Ok(Code {
            max_stack,
            max_locals,
            bytes,
            handlers,
        })
    }

    /// A code behind the name of its attribute.
    #[tactic(auto, unfolding(crate::specs::Reading::code, kb_grammar::specs::Reading::sized))]
    fn code(&mut self, alloc: Global, pool: &[PoolEntry]) -> Result<Code, ClassRefusal>
        ensures { Gives (λ code. (code, self.new)) result (code pool.now self.old) }
    {
        let len = self.u4()?;
        let from = self.offset();
        let content = self.run(len as usize)?;
        code_of(alloc, content, from, pool)
    }

    /// The code that a method has behind a Code attribute, of which it may have one.
    #[tactic(auto, unfolding(crate::specs::Reading::code_attribute))]
    fn code_attribute(
        &mut self,
        alloc: Global,
        pool: &[PoolEntry],
        number: u32,
        before: Option<Code>,
    ) -> Result<Option<Code>, ClassRefusal>
        ensures { Gives (λ code. (code, self.new)) result (code_attribute pool.now number before self.old) }
    {
        if before.is_some() {
            return Err(ClassRefusal::TwoCodes(number));
        }
        let code = self.code(alloc, pool)?;
        Ok(Some(code))
    }

    /// The code that a method has behind an attribute of that name.
    #[tactic(auto, unfolding(crate::specs::Reading::named_attribute))]
    fn named_attribute(
        &mut self,
        alloc: Global,
        pool: &[PoolEntry],
        number: u32,
        before: Option<Code>,
        name: u16,
    ) -> Result<Option<Code>, ClassRefusal>
        ensures { Gives (λ code. (code, self.new)) result (named_attribute pool.now number before name self.old) }
    {
        if is_text(utf8_in(pool, name), b"Code") {
            return self.code_attribute(alloc, pool, number, before);
        }
        self.content()?;
        Ok(before)
    }

    /// The code that the method with that number, from 0, has behind one attribute more.
    #[tactic(auto, unfolding(crate::specs::Reading::method_attribute))]
    fn method_attribute(
        &mut self,
        alloc: Global,
        pool: &[PoolEntry],
        number: u32,
        before: Option<Code>,
    ) -> Result<Option<Code>, ClassRefusal>
        ensures { Gives (λ code. (code, self.new)) result (method_attribute pool.now number before self.old) }
    {
        let name = self.index_of(EntryKind::Text, pool)?;
        self.named_attribute(alloc, pool, number, before, name)
    }

    /// The code among the attributes of the method with that number, behind their count.
    #[tactic(auto, unfolding(crate::specs::Reading::method_attributes))]
    pub fn method_attributes(
        &mut self,
        alloc: Global,
        pool: &[PoolEntry],
        number: u32,
    ) -> Result<Option<Code>, ClassRefusal>
        ensures { Gives (λ code. (code, self.new)) result (method_attributes pool.now number self.old) }
    {
        let count = self.u2()?;
        let mut code = None;
        for _ in 0..count {
            code = self.method_attribute(alloc, pool, number, code)?;
        }
        Ok(code)
    }
}
