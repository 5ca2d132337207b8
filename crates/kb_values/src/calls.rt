//! What a call has as its receiver, and what a method of the platform answers (JVMS 8 section 6.5).

ghost use Rattle.std.specs.Prelude.{◌≡◌};
ghost use Rattle.kb_semantics.specs.Instructions.{platform_result};
ghost use Rattle.kb_semantics.specs.Operands.{argument_of, receiver_of};

use crate::choices::same_reference;
use crate::types::truth;
use kb_class::MethodInfo;
use kb_heap::Value;
use kb_lookups::is_equals;
use kb_semantics::World;

/// The receiver of these arguments.
pub fn receiver_of(args: &[Value]) -> Option<u32>
    ensures { result ≡ receiver_of args.now }
{
    match args {
        [Value::Ref(object), ..] => Some(*object),
        _ => None,
    }
}

/// What a method of a platform class answers.
pub fn platform_result(world: &World, method: &MethodInfo, args: &[Value]) -> Option<Value>
    ensures { result ≡ platform_result world.now method.now args.now }
{
    if !is_equals(world, method) {
        return None;
    }
    let same = same_reference(receiver_of(args), argument_of(args));
    Some(Value::Int(truth(same)))
}

// The reference behind the receiver.
fn argument_of(args: &[Value]) -> Option<u32>
    ensures { result ≡ argument_of args.now }
{
    match args {
        [_, Value::Ref(object), ..] => Some(*object),
        _ => None,
    }
}
