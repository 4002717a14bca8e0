// What the definitions say, in other words. Each law is the contract of a function that does nothing.

ghost use Rattle.std.specs.Prelude.{◌≡◌, ◌↔◌, None};
ghost use Rattle.abstract_syntax.specs.Classes.{SpecTree};
ghost use Rattle.spec_checks.specs.Definitions.{spec_fault};
ghost use Rattle.spec_checks.specs.WellTyped.{IsWellTypedSpec};

/// A specification that is well typed has no first refusal, and every other has one.
pub fn well_typed()
    ensures { (spec : SpecTree) → (spec_fault spec ≡ None) ↔ IsWellTypedSpec spec }
{}
