// The types that a place sees.

ghost use Rattle.std.specs.Prelude.{◌≡◌, option_map};
ghost use Rattle.std.specs.Borrow.{Bor};
ghost use Rattle.expr_tree.specs.TypeDefView.{type_def_view};
ghost use Rattle.expr_tree.specs.declared.type_def.TypeDef.{TypeDef};
ghost use Rattle.class_meaning.specs.Classes.{class_number};
ghost use Rattle.class_meaning.specs.Laws.{type_rank};
ghost use Rattle.class_checks.specs.TypeNames.{descends, sees, seen_from, seen_type};
ghost use Rattle.spec_table.specs.Tables.{table_spec};
ghost use Rattle.check_scopes.specs.Seen.{ranked_seen};

use expr_tree::{TypeDef, TypeNames};
use spec_table::ClassTable;
use vdm_kinds::Name;

/// The table as a finder of types that may be named where they are looked up.
#[derive(Clone, Copy)]
pub struct SeenTypes<'t> {
    pub table: &'t ClassTable,
}

impl<'t> TypeNames for SeenTypes<'t> {
    ghost found = { λ names. seen_type (table_spec names.table.now) };

    ghost rank = { λ names. type_rank (table_spec names.table.now) };

    ghost descends = { λ names. descends (table_spec names.table.now) };

    fn type_def(&self, scope: Name, class: Option<Name>, name: Name) -> Option<&TypeDef> {
        seen(self.table, scope, self.table.type_def(scope, class, name))
    }

    fn is_kind_of(&self, class: Name, ancestor: Name) -> bool {
        self.table.is_kind_of(class, ancestor)
    }

    fn all_classes(&self) -> &[Name] {
        self.table.all_classes()
    }

    ghost ranked = { λ names. ranked_seen (table_spec names.table.now) names.table.now.fine };
}

fn seen<'t>(table: &'t ClassTable, scope: Name, found: Option<&'t TypeDef>) -> Option<&'t TypeDef>
    ensures { option_map (λ (d : Bor TypeDef). type_def_view d.now) result ≡ seen_from (table_spec table.now) scope (option_map (λ (d : Bor TypeDef). type_def_view d.now) found.entry) }
{
    let definition = found?;
    if sees(table, scope, definition) {
        Some(definition)
    } else {
        None
    }
}

fn sees(table: &ClassTable, scope: Name, definition: &TypeDef) -> bool
    ensures { result ≡ sees (table_spec table.now) (class_number (table_spec table.now) scope) (class_number (table_spec table.now) (type_def_view definition.now).class) (type_def_view definition.now) }
{
    match table.number(definition.class) {
        Some(_) => table.visible(Some(scope), definition.class, definition.access),
        None => false,
    }
}
