// What is built has a meaning: no node of it meets what stands for forms without one. Each law is the contract of a function that does
// nothing.

ghost use Rattle.std.specs.Prelude.{◌≡◌, ℕ, true, false, List, Option, Some, None};
ghost use Rattle.vdm_kinds.specs.NameList.{io};
ghost use Rattle.vdm_kinds.specs.declared.name.Name.{Name};
ghost use Rattle.vdm_kinds.specs.declared.place.Place.{Place};
ghost use Rattle.vdm_kinds.specs.declared.run_fault.RunFault.TheVariants.{TypeFault, Undefined};
ghost use Rattle.abstract_syntax.specs.Values.{ValueTree};
ghost use Rattle.abstract_syntax.specs.Types.{TypeTree};
ghost use Rattle.abstract_syntax.specs.Expressions.{ExprTree, expr_place};
ghost use Rattle.abstract_syntax.specs.Statements.{TargetStepTree, variable_of_class};
ghost use Rattle.abstract_syntax.specs.Classes.{TypeDefTree, VariableTree, FunctionTree, OperationTree, SpecTree, is_same_name};
ghost use Rattle.node_meaning.specs.Envs.{Locals, Here};
ghost use Rattle.node_meaning.specs.Fitting.{fitting_in};
ghost use Rattle.node_meaning.specs.Expressions.{expr_plan, bare_call, value_named};
ghost use Rattle.node_meaning.specs.Needs.{Setting};
ghost use Rattle.stmt_meaning.specs.Targets.{goal_of};
ghost use Rattle.node_meaning.specs.Tasks.{Declared, fault};
ghost use Rattle.text_phases.specs.Built.{IsBuiltExpr, unbuilt_in_invariant, unbuilt_in_function, unbuilt_in_operation, unbuilt_in_variable, unbuilt_in_spec};
ghost use Rattle.built_laws.specs.Asked.{AsksInvariants};
ghost use Rattle.built_laws.specs.Meant.{has_plan, IsMeant, MakesNothing};
ghost use Rattle.built_laws.specs.MeantClasses.{IsMeantFunction, IsMeantOperation, IsMeantType, IsMeantSpec};
ghost use Rattle.built_laws.specs.MeantStmts.{is_application};

/// Each node of a built expression has a meaning, however deep one looks.
pub fn built_expressions_have_meaning()
    ensures { (levels : ℕ) (tree : ExprTree) → IsBuiltExpr tree → IsMeant levels tree }
{}

/// So has each statement of a built operation, each node of its expressions, its patterns, and its conditions.
pub fn built_operations_have_meaning()
    ensures { (levels : ℕ) (o : OperationTree) → unbuilt_in_operation o ≡ None → IsMeantOperation levels o }
{}

/// So has the initial value of a built variable, where it has one; and that of a static one makes no object.
pub fn built_variables_have_meaning()
    ensures meant { (levels : ℕ) (v : VariableTree) (value : ExprTree) → unbuilt_in_variable v ≡ None → v.initial ≡ Some value
        → IsMeant levels value }
    ensures statics { (levels : ℕ) (v : VariableTree) (value : ExprTree) → unbuilt_in_variable v ≡ None → v.initial ≡ Some value
        → v.access.is_static ≡ true → MakesNothing levels value }
{}

/// So has what is evaluated of a built function: its patterns, its body, and its conditions.
pub fn built_functions_have_meaning()
    ensures { (levels : ℕ) (f : FunctionTree) → unbuilt_in_function f ≡ None → IsMeantFunction levels f }
{}

/// So has what is evaluated of the invariant of a built type: its pattern, and its condition.
pub fn built_types_have_meaning()
    ensures { (levels : ℕ) (t : TypeDefTree) → unbuilt_in_invariant t.invariant ≡ None → IsMeantType levels t }
{}

/// So has each definition of a built specification, in whichever class. It has no threads and no synchronisation.
pub fn built_specifications_have_meaning()
    ensures { (levels : ℕ) (spec : SpecTree) → unbuilt_in_spec spec ≡ None → IsMeantSpec levels spec }
{}

/// A test of a value against a type asks for no invariant of a type that has none.
pub fn invariants_that_are_asked_for_are_there()
    ensures { (spec : SpecTree) (scope : Option Name) (t : TypeTree) (v : ValueTree) → AsksInvariants (fitting_in spec scope t v) }
{}

/// What has no meaning is a fault at its place.
pub fn others_are_undefined()
    ensures expressions { (setting : Setting) (here : Here) (locals : Locals) (tree : ExprTree) → has_plan tree ≡ false
        → expr_plan setting here locals tree ≡ fault Undefined (expr_place tree) }
    ensures calls { (setting : Setting) (here : Here) (locals : Locals) (tree : ExprTree) → is_application tree ≡ false
        → bare_call setting here locals tree ≡ fault TypeFault (expr_place tree) }
{}

/// No name of the class `IO` has a value, and none is written to: it has operations alone.
pub fn io_has_no_variables()
    ensures values { (setting : Setting) (here : Here) (locals : Locals) (class name : Name) (place : Place)
        → is_same_name class io ≡ true
        → value_named setting here place (Some class) name locals ≡ fault Undefined place }
    ensures targets { (spec : SpecTree) (here : Here) (declared : Declared) (class name : Name) (name_place : Place) (steps : List TargetStepTree)
        (place : Place) → is_same_name class io ≡ true
        → goal_of spec here declared (variable_of_class class name name_place steps place) ≡ None }
{}
