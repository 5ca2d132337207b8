//! What a call names, and which method it comes to (JVMS 8 section 6.5).

ghost use Rattle.std.specs.Prelude.{◌≡◌, option_map};
ghost use Rattle.kb_class.specs.declared.ids.MethodId.{MethodId as PlainId};
ghost use Rattle.kb_semantics.specs.Instructions.{callee_at, is_equals, selected_at};
ghost use Rattle.kb_lookups.specs.Callees.{plain_callee};

use kb_class::{ClassId, MemberKind, MethodId, MethodInfo};
use kb_names::{ExactType, MethodType};
use kb_semantics::World;

/// A call's entry: the type in which the method is sought, and the method's type.
#[derive(Clone, Copy)]
pub struct Callee<'w> {
    pub class: &'w ExactType,
    pub kind: &'w MethodType,
}

/// What a call's entry of the class names. It takes no memory.
pub fn callee_at<'w>(world: &'w World, class: ClassId, entry: u16) -> Option<Callee<'w>>
    ensures { option_map plain_callee result ≡ callee_at world.now class.0 entry }
{
    let found = world.find_reference(class, entry)?;
    match found.kind {
        MemberKind::Method(kind) => Some(Callee {
            class: found.class,
            kind,
        }),
        MemberKind::Field(_) => None,
    }
}

/// What is called in place of the method of an entry, which is sought in the type, where the receiver is of the exact type. It
/// takes no memory.
pub fn selected_at(
    world: &World,
    class: ClassId,
    entry: u16,
    callee: &Callee<'_>,
    receiver: &ExactType,
) -> Option<MethodId>
    ensures { option_map (λ (id : PlainId). id.0) result ≡ selected_at world.now class.0 entry (plain_callee callee.now) receiver.now }
{
    if !world.exact_subtype(receiver, callee.class) {
        return None;
    }
    let method = world.find_resolved(class, entry)?;
    world.find_selected(method, receiver)
}

/// Whether the method is the platform's Object.equals. It takes no memory.
pub fn is_equals(world: &World, method: &MethodInfo) -> bool
    ensures { result ≡ is_equals world.now method.now }
{
    if !world.is_platform(method.class) {
        return false;
    }
    method.name.as_slice() == b"equals".as_slice()
}
