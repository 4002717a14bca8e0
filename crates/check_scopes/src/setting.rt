// The table and the scope that all nodes of an expression share.

ghost use Rattle.std.specs.Prelude.{◌≡◌, IfOk};
ghost use Rattle.class_checks.specs.TypeNames.{form_of, opened, meets};
ghost use Rattle.class_checks.specs.Scopes.{type_scope};
ghost use Rattle.type_tree.specs.TypeView.{type_view};
ghost use Rattle.check_scopes.specs.Told.{spec_in, scope_view};

use crate::scope::Scope;
use crate::seen_types::SeenTypes;
use spec_table::ClassTable;
use std::alloc::Global;
use type_forms::Form;
use type_tree::TypeExpr;
use vdm_kinds::{Name, OutOfMemory};

/// The table of the classes, and where the whole expression stands.
#[derive(Clone, Copy)]
pub struct Setting<'t> {
    pub table: &'t ClassTable,
    pub scope: &'t Scope,
}

impl<'t> Setting<'t> {
    /// The class in which names of types are looked up: the expression of a run has those that `IO` has.
    pub fn type_scope(&self) -> Name
        ensures { result ≡ type_scope (scope_view self.now.scope.now) }
    {
        match self.scope.class {
            Some(class) => class,
            None => Name::IO,
        }
    }

    /// Whether some value may be of two forms, whose names are opened.
    pub fn meets(&self, a: &Form, b: &Form) -> bool
        ensures { result ≡ meets (spec_in self.now) a.now b.now }
    {
        type_forms::meets(a, b, &SeenTypes { table: self.table })
    }

    /// What a form stands for, its names opened.
    pub fn opened(&self, alloc: Global, form: &Form) -> Result<Form, OutOfMemory>
        ensures { IfOk result (λ f. f ≡ opened (spec_in self.now) form.now) }
    {
        type_forms::opened(alloc, form, &SeenTypes { table: self.table })
    }

    /// The form of a type in a class.
    pub fn form_of(
        &self,
        alloc: Global,
        scope: Name,
        declared: &TypeExpr,
    ) -> Result<Form, OutOfMemory>
        ensures { IfOk result (λ f. f ≡ form_of (spec_in self.now) scope (type_view declared.now)) }
    {
        type_forms::form_of(alloc, scope, declared, &SeenTypes { table: self.table })
    }
}
