// The slots of local and of held variables.

ghost use Rattle.std.specs.Prelude.{◌≡◌, option_map};
ghost use Rattle.std.specs.Borrow.{Bor};
ghost use Rattle.vdm_values.specs.declared.slot.Slot.{Slot};
ghost use Rattle.class_meaning.specs.Laws.{is_same_variable};
ghost use Rattle.node_meaning.specs.Envs.{local_named, slot_held};
ghost use Rattle.eval_data.specs.Parts.{held_of};

use eval_data::Held;
use vdm_kinds::{Name, VarRef};
use vdm_values::Slot;

/// The slot of the newest local of the name.
pub fn local_slot<'a>(locals: &'a [(Name, Slot)], name: Name) -> Option<&'a Slot>
    ensures { option_map (λ (s : Bor Slot). s.now) result ≡ local_named locals.now name }
{
    for index in (0..locals.len()).rev() {
        let local = &locals[index];
        if name.0 == local.0.0 {
            return Some(&local.1);
        }
    }
    None
}

/// The slot of a held variable.
pub fn held_slot(held: &Held, variable: VarRef) -> Option<&Slot>
    ensures { option_map (λ (s : Bor Slot). s.now) result ≡ slot_held (held_of held.now) variable }
{
    for entry in held.variables.as_slice() {
        if is_same_variable(variable, entry.0) {
            return Some(&entry.1);
        }
    }
    None
}

fn is_same_variable(a: VarRef, b: VarRef) -> bool
    ensures { result ≡ is_same_variable a b }
{
    a.class.0 == b.class.0 && a.name.0 == b.name.0
}
