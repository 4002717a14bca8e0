// The newest of the locals of a name.

ghost use Rattle.std.specs.Prelude.{◌≡◌, ◌<◌, IfSome, length, map, option_map};
ghost use Rattle.std.specs.Borrow.{Bor};
ghost use Rattle.vdm_kinds.specs.declared.name.Name.{Name as NameOf};
ghost use Rattle.vdm_values.specs.declared.slot.Slot.{Slot as SlotOf};
ghost use Rattle.type_tree.specs.declared.type_expr.TypeExpr.{TypeExpr as TypeExprOf};
ghost use Rattle.type_tree.specs.TypeView.{type_view};
ghost use Rattle.stmt_meaning.specs.Targets.{declared_type, set_newest};
ghost use Rattle.target_values.specs.Places.{at_place};

use type_tree::TypeExpr;
use vdm_kinds::Name;
use vdm_values::Slot;

/// Gives the newest local of the name another slot. Where none has the name nothing changes.
pub fn set_newest(locals: &mut Vec<(Name, Slot)>, name: Name, slot: Slot)
    ensures { locals.new.items ≡ set_newest name slot locals.old.items }
{
    if let Some(place) = newest_place(locals.as_slice(), name) {
        locals[place].1 = slot;
    }
}

/// The number of the newest local of the name.
fn newest_place(locals: &[(Name, Slot)], name: Name) -> Option<usize>
    ensures there { IfSome result (λ place. place < length locals.now) }
    ensures newest { (slot : SlotOf) → set_newest name slot locals.now ≡ at_place result slot locals.now }
{
    for place in (0..locals.len()).rev() {
        if name.0 == locals[place].0.0 {
            return Some(place);
        }
    }
    None
}

/// The type of the newest local of the name that is declared.
pub fn declared_type<'t>(declared: &[(Name, &'t TypeExpr)], name: Name) -> Option<&'t TypeExpr>
    ensures { option_map (λ (t : Bor TypeExprOf). type_view t.now) result ≡ declared_type (map (λ (d : NameOf × Bor TypeExprOf). (d.0, type_view d.1.now)) declared.now) name }
{
    for index in (0..declared.len()).rev() {
        let local = &declared[index];
        if name.0 == local.0.0 {
            return Some(local.1);
        }
    }
    None
}
