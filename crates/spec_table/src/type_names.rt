// The table as a finder of types.

ghost use Rattle.std.specs.Prelude.{◌≡◌, option_map};
ghost use Rattle.std.specs.Borrow.{Bor};
ghost use Rattle.expr_tree.specs.TypeDefView.{type_def_view};
ghost use Rattle.expr_tree.specs.declared.type_def.TypeDef.{TypeDef};
ghost use Rattle.std.specs.Option.{option_and_then};
ghost use Rattle.class_meaning.specs.Classes.{class_number};
ghost use Rattle.class_meaning.specs.Found.{own_in, found_type, type_named, type_of};
ghost use Rattle.class_meaning.specs.declared.ask.Ask.TheVariants.{AsType};
ghost use Rattle.spec_table.specs.Members.{descends_from};
ghost use Rattle.member_meaning.specs.TypeRanks.{finder, type_rank};
ghost use Rattle.spec_table.specs.Tables.{table_spec};
ghost use Rattle.spec_table.specs.Ranked.{ranked};

use crate::item::Item;
use crate::table::ClassTable;
use class_meaning::{Ask, Found};
use expr_tree::{TypeDef, TypeNames};
use vdm_kinds::Name;

impl TypeNames for ClassTable {
    ghost found = { λ table. finder (table_spec table) };

    ghost rank = { λ table. type_rank (table_spec table) };

    ghost descends = { λ table. descends_from (table_spec table) };

    fn type_def(&self, scope: Name, class: Option<Name>, name: Name) -> Option<&TypeDef> {
        if self.types_stand {
            self.type_named(scope, class, name)
        } else {
            None
        }
    }

    fn is_kind_of(&self, class: Name, ancestor: Name) -> bool {
        self.descends(class, ancestor)
    }

    fn all_classes(&self) -> &[Name] {
        self.classes()
    }

    ghost ranked = { λ table. ranked (table_spec table) table.fine };
}

impl ClassTable {
    fn type_named(&self, scope: Name, class: Option<Name>, name: Name) -> Option<&TypeDef>
        ensures { option_map (λ (d : Bor TypeDef). type_def_view d.now) result ≡ type_named (table_spec self.now) scope class name }
    {
        match class {
            Some(class) => self.type_in(class, name),
            None => self.type_in(scope, name),
        }
    }

    fn type_in(&self, class: Name, name: Name) -> Option<&TypeDef>
        ensures { option_map (λ (d : Bor TypeDef). type_def_view d.now) result ≡ option_and_then (found_type (table_spec self.now) name) (class_number (table_spec self.now) class) }
    {
        let k = self.list.number(class)?;
        match self.found(k, Ask::AsType(name)) {
            Found::One(owner) => self.own_type(owner, name),
            _ => None,
        }
    }

    fn own_type(&self, k: usize, name: Name) -> Option<&TypeDef>
        ensures { option_map (λ (d : Bor TypeDef). type_def_view d.now) result ≡ option_and_then type_of (own_in (table_spec self.now) (AsType name) k) }
    {
        match self.own_member(k, Ask::AsType(name))? {
            Item::TypeDef(definition) => Some(definition),
            _ => None,
        }
    }
}
