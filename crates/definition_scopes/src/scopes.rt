// Where the parts of definitions stand.

ghost use Rattle.std.specs.Prelude.{◌≡◌};
ghost use Rattle.spec_checks.specs.Definitions.{afterwards, in_class, in_operation};
ghost use Rattle.class_checks.specs.Scopes.{of_run};
ghost use Rattle.class_checks.specs.Scopes.{Locals as LocalForms};
ghost use Rattle.check_scopes.specs.Told.{scope_view};
ghost use Rattle.definition_scopes.specs.Standing.{with_locals};

use check_scopes::Scope;
use class_checks::Reach;
use shared_names::SharedMap;
use type_forms::Form;
use vdm_kinds::{Access, Name};

/// In a class, with nothing bound.
pub fn in_class(class: Name, reach: Reach) -> Scope
    ensures { scope_view result ≡ in_class class reach }
{
    Scope {
        class: Some(class),
        locals: SharedMap::new(),
        result: None,
        old: false,
        object: true,
        reach,
    }
}

/// In an operation of a class, with nothing bound: a static one has no object.
pub fn in_operation(class: Name, access: Access) -> Scope
    ensures { scope_view result ≡ in_operation class access }
{
    Scope {
        class: Some(class),
        locals: SharedMap::new(),
        result: None,
        old: false,
        object: !access.is_static,
        reach: Reach::Free,
    }
}

/// In the `post` of what has a result of this form, where it has one; the locals are handed in apart. `old`: whether `x~` may
/// stand.
pub fn afterwards(scope: &Scope, form: Option<Form>, old: bool) -> Scope
    ensures { (names : LocalForms) → with_locals result names ≡ afterwards (with_locals scope.now names) form old }
{
    Scope {
        class: scope.class,
        locals: SharedMap::new(),
        result: form,
        old,
        object: scope.object,
        reach: scope.reach,
    }
}

/// The expression of a run stands in no class.
pub fn of_run() -> Scope
    ensures { scope_view result ≡ of_run }
{
    Scope {
        class: None,
        locals: SharedMap::new(),
        result: None,
        old: false,
        object: false,
        reach: Reach::Free,
    }
}
