// Laws of which texts are accepted. Each is the contract of a function that does nothing.

ghost use Rattle.std.specs.Prelude.{◌≡◌, ℕ, ◌⊎◌, List, Some, None};
ghost use Rattle.vdm_kinds.specs.declared.spec_fault.SpecFault.{SpecFault};
ghost use Rattle.abstract_syntax.specs.Expressions.{ExprTree};
ghost use Rattle.abstract_syntax.specs.Classes.{SpecTree};
ghost use Rattle.class_meaning.specs.Faults.{table_fault};
ghost use Rattle.spec_checks.specs.Definitions.{spec_fault};
ghost use Rattle.spec_checks.specs.Threads.{run_fault};
ghost use Rattle.text_phases.specs.Built.{unbuilt_fault, IsBuilt, IsBuiltExpr};
ghost use Rattle.text_phases.specs.Phases.{IsChecked, IsAccepted, checks_fault, main_checks_fault, spec_refusal, first_refusal};

/// A specification has one tree or one refusal, and never both.
pub fn one_specification()
    ensures unique { (spec : List ℕ) (a b : SpecTree) → IsChecked spec a → IsChecked spec b → a ≡ b }
    ensures apart { (spec : List ℕ) (tree : SpecTree) → IsChecked spec tree → spec_refusal spec ≡ None }
    ensures decided { (spec : List ℕ)
        → ((tree : SpecTree) × IsChecked spec tree) ⊎ ((fault : SpecFault) × (spec_refusal spec ≡ Some fault)) }
{}

/// Two texts have one list of names and one tree each, or one first refusal, and never both. What refuses the specification by
/// itself refuses it before any expression.
pub fn one_answer()
    ensures unique { (spec text : List ℕ) (m n : List (List ℕ)) (a b : SpecTree) (e f : ExprTree)
        → IsAccepted spec text m a e → IsAccepted spec text n b f → (m ≡ n) × (a ≡ b) × (e ≡ f) }
    ensures apart { (spec text : List ℕ) (names : List (List ℕ)) (tree : SpecTree) (expression : ExprTree)
        → IsAccepted spec text names tree expression → first_refusal spec text ≡ None }
    ensures decided { (spec text : List ℕ)
        → ((names : List (List ℕ)) × (tree : SpecTree) × (expression : ExprTree) × IsAccepted spec text names tree expression)
        ⊎ ((fault : SpecFault) × (first_refusal spec text ≡ Some fault)) }
    ensures checked { (spec text : List ℕ) (names : List (List ℕ)) (tree : SpecTree) (expression : ExprTree)
        → IsAccepted spec text names tree expression → IsChecked spec tree }
    ensures first { (spec text : List ℕ) (fault : SpecFault) → spec_refusal spec ≡ Some fault → first_refusal spec text ≡ Some fault }
{}

/// What runs is built: the specification, and the expression.
pub fn what_runs_is_built()
    ensures specification { (spec text : List ℕ) (names : List (List ℕ)) (tree : SpecTree) (expression : ExprTree)
        → IsAccepted spec text names tree expression → IsBuilt tree }
    ensures expression { (spec text : List ℕ) (names : List (List ℕ)) (tree : SpecTree) (expression : ExprTree)
        → IsAccepted spec text names tree expression → IsBuiltExpr expression }
{}

/// The table of the classes refuses before the checks, and the checks before what is not built; under `run` the expression's checks
/// come between these.
pub fn phases_follow()
    ensures table { (spec : SpecTree) (fault : SpecFault) → table_fault spec ≡ Some fault → checks_fault spec ≡ Some fault }
    ensures checks { (spec : SpecTree) (fault : SpecFault) → table_fault spec ≡ None → spec_fault spec ≡ Some fault → checks_fault spec ≡ Some fault }
    ensures expression { (spec : SpecTree) (tree : ExprTree) (fault : SpecFault) → run_fault spec tree ≡ Some fault → main_checks_fault spec tree ≡ Some fault }
    ensures forms { (spec : SpecTree) (tree : ExprTree) → run_fault spec tree ≡ None → main_checks_fault spec tree ≡ unbuilt_fault spec tree }
{}
