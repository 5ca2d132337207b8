//! The handlers of a method's code, as kb_code reads them.

ghost use Rattle.std.specs.Prelude.{◌≡◌, IfOk};
ghost use Rattle.kb_class.specs.Given.{handler_of, handlers_of};

use kb_classfile::Code;
use kb_code::Handler;
use kb_names::NoMemory;
use std::alloc::Global;

/// The rows of a code's handler table, in order.
pub fn handlers_of(alloc: Global, code: &Code) -> Result<Vec<Handler>, NoMemory>
    ensures { IfOk result (λ handlers. handlers.items ≡ handlers_of code.now) }
{
    let mut handlers = Vec::new(alloc);
    for row in code.handlers.as_slice() {
        handlers.push(handler_of(row))?;
    }
    Ok(handlers)
}

fn handler_of(row: &kb_classfile::Handler) -> Handler
    ensures { result ≡ handler_of row.now }
{
    Handler {
        start: row.start,
        end: row.end,
        target: row.target,
        catch: row.catch,
    }
}
