// The members of classes: what a class itself has, and what names mean in it.

ghost use Rattle.std.specs.Prelude.{◌≡◌, Some, option_map};
ghost use Rattle.std.specs.Option.{option_and_then};
ghost use Rattle.abstract_syntax.specs.Classes.{ClassTree};
ghost use Rattle.class_index.specs.Answers.{located};
ghost use Rattle.std.specs.Borrow.{Bor};
ghost use Rattle.vdm_tree.specs.ClassView.{value_def_view, variable_view, function_view, operation_view};
ghost use Rattle.vdm_tree.specs.declared.class_def.ValueDef.{ValueDef};
ghost use Rattle.vdm_tree.specs.declared.class_def.VarDef.{VarDef};
ghost use Rattle.vdm_tree.specs.declared.class_def.FunctionDef.{FunctionDef};
ghost use Rattle.vdm_tree.specs.declared.class_def.OpDef.{OpDef};
ghost use Rattle.class_meaning.specs.Classes.{class_at, name_of_class};
ghost use Rattle.class_meaning.specs.Found.{found, own_in, has_own};
ghost use Rattle.spec_table.specs.Members.{item_view, own_member, own_value, own_variable, own_function, own_operation};
ghost use Rattle.spec_table.specs.Tables.{table_spec};

use crate::item::{Item, is_same_kind, item_at};
use crate::table::ClassTable;
use class_index::MemberAt;
use class_meaning::{Ask, Found, MemberKind};
use vdm_kinds::{Name, OpRef, VarRef};
use vdm_tree::{FunctionDef, OpDef, ValueDef, VarDef};

impl ClassTable {
    /// The class's own definition of an operation. None where the class has none of the name and number, or there is no such class.
    pub fn operation(&self, op: &OpRef) -> Option<&OpDef>
        ensures { option_map (λ (d : Bor OpDef). operation_view d.now) result ≡ own_operation (table_spec self.now) op.now }
    {
        match self.member(op.class, Ask::Called(op.name, op.arity as usize))? {
            Item::Operation(definition) => Some(definition),
            _ => None,
        }
    }

    /// The class's own definition of a function. None where the class has none of the name and number, or there is no such class.
    pub fn function(&self, op: &OpRef) -> Option<&FunctionDef>
        ensures { option_map (λ (d : Bor FunctionDef). function_view d.now) result ≡ own_function (table_spec self.now) op.now }
    {
        match self.member(op.class, Ask::Called(op.name, op.arity as usize))? {
            Item::Function(definition) => Some(definition),
            _ => None,
        }
    }

    /// The class's own definition of a variable. None where the class has none of the name, or there is no such class.
    pub fn variable(&self, variable: &VarRef) -> Option<&VarDef>
        ensures { option_map (λ (d : Bor VarDef). variable_view d.now) result ≡ own_variable (table_spec self.now) variable.now }
    {
        match self.member(variable.class, Ask::ByName(variable.name))? {
            Item::Variable(definition) => Some(definition),
            _ => None,
        }
    }

    /// The class's own definition of a class value. None where the class has none of the name, or there is no such class.
    pub fn value(&self, value: &VarRef) -> Option<&ValueDef>
        ensures { option_map (λ (d : Bor ValueDef). value_def_view d.now) result ≡ own_value (table_spec self.now) value.now }
    {
        match self.member(value.class, Ask::ByName(value.name))? {
            Item::Value(definition) => Some(definition),
            _ => None,
        }
    }

    /// What the class of a name itself answers with.
    pub fn member(&self, class: Name, ask: Ask) -> Option<Item<'_>>
        ensures { option_map item_view result ≡ own_member (table_spec self.now) class ask }
    {
        let k = self.list.number(class)?;
        self.own_member(k, ask)
    }

    /// What the class of a number itself answers with.
    pub(crate) fn own_member(&self, k: usize, ask: Ask) -> Option<Item<'_>>
        ensures { option_map item_view result ≡ own_in (table_spec self.now) ask k }
    {
        let class = self.list.class(k)?;
        let at = self.answer(k, ask)?;
        item_at(class, at)
    }

    // Where the class's own answer stands.
    fn answer(&self, k: usize, ask: Ask) -> Option<MemberAt>
        ensures { (class : ClassTree) → class_at (table_spec self.now) k ≡ Some class → option_and_then (located class) result ≡ own_in (table_spec self.now) ask k }
    {
        self.names.own(k, ask)
    }

    /// Whether the class of a number itself answers with a member of the kind.
    pub(crate) fn has_own(&self, k: usize, ask: Ask, kind: MemberKind) -> bool
        ensures { result ≡ has_own (table_spec self.now) ask kind k }
    {
        match self.own_member(k, ask) {
            Some(item) => is_same_kind(kind, item.kind()),
            None => false,
        }
    }

    /// The class whose definition a name means in the class of a number.
    pub(crate) fn found(&self, k: usize, ask: Ask) -> Found
        ensures { result ≡ found (table_spec self.now) ask k }
    {
        self.names.found(k, ask)
    }

    /// The name of the class of a number.
    pub(crate) fn name_of_class(&self, k: usize) -> Name
        ensures { result ≡ name_of_class (table_spec self.now) k }
    {
        match self.class_names.as_slice().get(k) {
            Some(name) => *name,
            None => Name::IO,
        }
    }
}
