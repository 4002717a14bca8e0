// What the definitions say, in other words. Each law is the contract of a function that does nothing.

ghost use Rattle.std.specs.Prelude.{◌≡◌, ◌↔◌, None};
ghost use Rattle.abstract_syntax.specs.Expressions.{ExprTree};
ghost use Rattle.abstract_syntax.specs.Classes.{SpecTree};
ghost use Rattle.class_checks.specs.Expressions.{check};
ghost use Rattle.class_checks.specs.Results.{first_fault};
ghost use Rattle.class_checks.specs.Scopes.{ScopeTree, of_run};
ghost use Rattle.class_checks.specs.WellTyped.{IsWellTyped, main_fault};

/// What is well typed has no first refusal, and all else has one.
pub fn well_typed()
    ensures none { (spec : SpecTree) (scope : ScopeTree) (e : ExprTree) → (first_fault (check spec scope e) ≡ None) ↔ IsWellTyped spec scope e }
    ensures main { (spec : SpecTree) (e : ExprTree) → (main_fault spec e ≡ None) ↔ IsWellTyped spec of_run e }
{}
