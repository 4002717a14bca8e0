// Classes worked out, with the names by their numbers.

ghost use Rattle.std.specs.Prelude.{◌≡◌, true, false, [], ◌∷◌, Some, None};
ghost use Rattle.vdm_kinds.specs.declared.access.Level.TheVariants.{Private, Protected, Public};
ghost use Rattle.vdm_kinds.specs.declared.spec_kind.SpecKind.TheVariants.{UnknownName, Duplicate, Cycle, WrongArity};
ghost use Rattle.abstract_syntax.specs.Classes.{same_as, with_fields};
ghost use Rattle.class_meaning.specs.Ancestors.{ancestors, ancestor_names};
ghost use Rattle.class_meaning.specs.Calls.{is_visible, on_the_way, reached};
ghost use Rattle.class_meaning.specs.Faults.{table_fault};
ghost use Rattle.class_meaning.specs.Found.{found, found_operation, found_variable};
ghost use Rattle.class_meaning.specs.Objects.{layout};
ghost use Rattle.class_meaning.specs.Worked.{name, a, b, c, d, f, v, t, u, naturals, called, called_in, either, maybe, list_of, type_of, field, variable, operation_with, operation, function_with, function, with_types, with_variables, with_functions, with_operations, above, class_with, class, spec, diamond, has_v, has_f, two, only, fault, variable_in, operation_in};
ghost use Rattle.class_meaning.specs.declared.ask.Ask.TheVariants.{AsType, ByName, Called};
ghost use Rattle.class_meaning.specs.declared.found.Found.TheVariants.{Nothing, One, Several};
ghost use Rattle.class_meaning.specs.declared.found.OpFound.TheVariants.{One as OneOp, Several as SeveralOps, None as NoOp};
ghost use Rattle.class_meaning.specs.declared.found.VarFound.TheVariants.{One as OneVar, Several as SeveralVars, None as NoVar};

/// The ancestors of a diamond: each class once, where it is met first.
pub fn ancestors_of_a_diamond()
    ensures numbers { ancestors (diamond [] [] [] []) 4 ≡ 4 ∷ 2 ∷ 1 ∷ 3 ∷ [] }
    ensures names { ancestor_names (diamond [] [] [] []) 4 ≡ name d ∷ name b ∷ name a ∷ name c ∷ [] }
    ensures side { ancestors (diamond [] [] [] []) 3 ≡ 3 ∷ 1 ∷ [] }
    ensures top { ancestors (diamond [] [] [] []) 1 ≡ 1 ∷ [] }
    ensures twice { ancestors (spec (class a [] [] ∷ class b (a ∷ a ∷ []) [] ∷ [])) 2 ≡ 2 ∷ 1 ∷ [] }
    ensures circle { ancestors (spec (class a (b ∷ []) [] ∷ class b (a ∷ []) [] ∷ [])) 1 ≡ 1 ∷ 2 ∷ [] }
{}

/// What a name means: the class's own definition, else what the superclasses agree on.
pub fn names_in_a_diamond()
    ensures agree { found (diamond has_v [] [] []) (ByName (name v)) 4 ≡ One 1 }
    ensures one_side { found (diamond [] has_v [] []) (ByName (name v)) 4 ≡ One 2 }
    ensures both_sides { found (diamond [] has_v has_v []) (ByName (name v)) 4 ≡ Several }
    ensures one_overrides { found (diamond has_v has_v [] []) (ByName (name v)) 4 ≡ Several }
    ensures own { found (diamond has_v has_v has_v has_v) (ByName (name v)) 4 ≡ One 4 }
    ensures own_side { found (diamond has_v has_v [] []) (ByName (name v)) 2 ≡ One 2 }
    ensures other_side { found (diamond has_v has_v [] []) (ByName (name v)) 3 ≡ One 1 }
    ensures nowhere { found (diamond [] [] [] has_v) (ByName (name v)) 3 ≡ Nothing }
    ensures circle { found (spec (class a (b ∷ []) [] ∷ class b (a ∷ []) has_v ∷ [])) (ByName (name v)) 1 ≡ Nothing }
    ensures no_type { found (diamond has_v [] [] []) (AsType (name v)) 4 ≡ Nothing }
    ensures applied { found (diamond has_v [] [] []) (Called (name v) 2) 4 ≡ One 1 }
    ensures called { found (diamond (has_f Public) [] [] []) (Called (name f) 1) 4 ≡ One 1 }
    ensures other_number { found (diamond (has_f Public) [] [] []) (Called (name f) 2) 4 ≡ Nothing }
{}

/// What is found, by its kind.
pub fn kinds_in_a_diamond()
    ensures operation { found_operation (diamond (has_f Public) [] [] []) 4 (name f) 1 ≡ OneOp (record { class = name a; name = name f; arity = 1 }) }
    ensures no_operation { found_operation (diamond has_v [] [] []) 4 (name v) 1 ≡ NoOp }
    ensures operations { found_operation (diamond [] (has_f Public) (has_f Public) []) 4 (name f) 1 ≡ SeveralOps }
    ensures variable { found_variable (diamond has_v [] [] []) 4 (name v) ≡ OneVar (variable_in a v) }
    ensures variables { found_variable (diamond [] has_v has_v []) 4 (name v) ≡ SeveralVars }
    ensures no_variable { found_variable (diamond has_v [] [] []) 4 (name f) ≡ NoVar }
{}

/// Who may name a member of the class `A`, whose number is 1.
pub fn members_are_seen()
    ensures private_itself { is_visible (two [] []) (Some 1) 1 Private ≡ true }
    ensures private_below { is_visible (two [] []) (Some 2) 1 Private ≡ false }
    ensures private_nowhere { is_visible (two [] []) None 1 Private ≡ false }
    ensures protected_itself { is_visible (two [] []) (Some 1) 1 Protected ≡ true }
    ensures protected_below { is_visible (two [] []) (Some 2) 1 Protected ≡ true }
    ensures protected_above { is_visible (two [] []) (Some 1) 2 Protected ≡ false }
    ensures protected_nowhere { is_visible (two [] []) None 1 Protected ≡ false }
    ensures public_nowhere { is_visible (two [] []) None 1 Public ≡ true }
{}

/// The variables of an object.
pub fn variables_of_an_object()
    ensures diamond { layout (diamond has_v has_v has_v has_v) 4 ≡ variable_in c v ∷ variable_in a v ∷ variable_in b v ∷ variable_in d v ∷ [] }
    ensures chain { layout (two has_v has_v) 2 ≡ variable_in a v ∷ variable_in b v ∷ [] }
    ensures order { layout (only (with_variables (variable v 20 ∷ variable u 21 ∷ []) ∷ [])) 1 ≡ variable_in a v ∷ variable_in a u ∷ [] }
{}

/// The operation that a call through an object of the class `B` reaches.
pub fn calls_through_an_object()
    ensures own_private { reached (two (has_f Private) (has_f Public)) (Some 1) 2 (name f) 1 ≡ operation_in a f 1 }
    ensures private_from_elsewhere { reached (two (has_f Private) (has_f Public)) None 2 (name f) 1 ≡ operation_in b f 1 }
    ensures private_from_below { reached (two (has_f Private) (has_f Public)) (Some 2) 2 (name f) 1 ≡ operation_in b f 1 }
    ensures public_from_above { reached (two (has_f Public) (has_f Public)) (Some 1) 2 (name f) 1 ≡ operation_in b f 1 }
    ensures inherited { reached (two (has_f Public) []) None 2 (name f) 1 ≡ operation_in a f 1 }
    ensures object_above { reached (two (has_f Public) (has_f Private)) (Some 2) 1 (name f) 1 ≡ operation_in a f 1 }
    ensures nowhere { reached (two (has_f Public) []) None 2 (name f) 2 ≡ None }
    ensures way { on_the_way (two (has_f Private) (has_f Public)) 2 (name f) 1
        ≡ record { class = name b; name = name f; arity = 1 } ∷ record { class = name a; name = name f; arity = 1 } ∷ [] }
{}

/// What the table refuses of classes and superclasses.
pub fn refusals_of_classes()
    ensures fine { table_fault (diamond has_v has_v has_v has_v) ≡ None }
    ensures nothing { table_fault (spec []) ≡ None }
    ensures twice { table_fault (spec (class_with a 1 [] [] ∷ class_with a 2 [] [] ∷ [])) ≡ fault Duplicate 2 }
    ensures circle { table_fault (spec (class_with a 1 (above b 2 ∷ []) [] ∷ class_with b 3 (above a 4 ∷ []) [] ∷ [])) ≡ fault Cycle 1 }
    ensures itself { table_fault (spec (class_with a 1 (above a 2 ∷ []) [] ∷ [])) ≡ fault Cycle 1 }
    ensures below_a_circle { table_fault (spec (class_with a 1 (above b 2 ∷ []) [] ∷ class_with b 3 (above b 4 ∷ []) [] ∷ [])) ≡ fault Cycle 3 }
    ensures unknown { table_fault (spec (class_with a 1 (above b 2 ∷ []) [] ∷ [])) ≡ fault UnknownName 2 }
    ensures built_in { table_fault (spec (class_with 0 1 [] [] ∷ [])) ≡ fault Duplicate 1 }
    ensures below_io { table_fault (spec (class_with a 1 (above 0 2 ∷ []) [] ∷ [])) ≡ None }
    ensures first { table_fault (spec (class_with a 1 (above b 2 ∷ []) [] ∷ class_with a 3 [] [] ∷ [])) ≡ fault UnknownName 2 }
{}

/// What the table refuses of types.
pub fn refusals_of_types()
    ensures unknown { table_fault (only (with_types (type_of a t 20 (same_as (called u 21)) ∷ []) ∷ [])) ≡ fault UnknownName 21 }
    ensures of_a_class { table_fault (only (with_types (type_of a t 20 (same_as (called a 21)) ∷ []) ∷ [])) ≡ None }
    ensures inherited { table_fault (two (with_types (type_of a t 20 (same_as naturals) ∷ []) ∷ [])
        (with_types (type_of b u 21 (same_as (called t 22)) ∷ []) ∷ [])) ≡ None }
    ensures not_inherited { table_fault (two (with_types (type_of a u 20 (same_as (called t 21)) ∷ []) ∷ [])
        (with_types (type_of b t 22 (same_as naturals) ∷ []) ∷ [])) ≡ fault UnknownName 21 }
    ensures behind_its_class { table_fault (two (with_types (type_of a u 20 (same_as (called_in b 21 t 22)) ∷ []) ∷ [])
        (with_types (type_of b t 23 (same_as naturals) ∷ []) ∷ [])) ≡ None }
    ensures behind_a_class_below { table_fault (two
        (with_types (type_of a t 20 (same_as naturals) ∷ type_of a u 21 (same_as (called_in b 22 t 23)) ∷ []) ∷ []) []) ≡ None }
    ensures behind_another_class { table_fault (two (with_types (type_of a u 20 (same_as (called_in b 21 t 22)) ∷ []) ∷ []) [])
        ≡ fault UnknownName 22 }
    ensures behind_no_class { table_fault (two (with_types (type_of a u 20 (same_as (called_in c 21 t 22)) ∷ []) ∷ []) []) ≡ fault UnknownName 21 }
    ensures fields { table_fault (only (with_types (type_of a t 20 (with_fields (field v 21 ∷ field v 22 ∷ [])) ∷ []) ∷ [])) ≡ fault Duplicate 22 }
    ensures two_fields { table_fault (only (with_types (type_of a t 20 (with_fields (field v 21 ∷ field u 22 ∷ [])) ∷ []) ∷ [])) ≡ None }
    ensures circle { table_fault (only
        (with_types (type_of a t 20 (same_as (either (called u 21) naturals)) ∷ type_of a u 22 (same_as (maybe (called t 23))) ∷ []) ∷ []))
        ≡ fault Cycle 20 }
    ensures itself { table_fault (only (with_types (type_of a t 20 (same_as (called t 21)) ∷ []) ∷ [])) ≡ fault Cycle 20 }
    ensures of_two_classes { table_fault (two (with_types (type_of a t 20 (same_as (called_in b 21 t 22)) ∷ []) ∷ [])
        (with_types (type_of b t 23 (same_as (called_in a 24 t 25)) ∷ []) ∷ [])) ≡ fault Cycle 20 }
    ensures in_a_list { table_fault (only (with_types (type_of a t 20 (same_as (list_of (called t 21))) ∷ []) ∷ [])) ≡ None }
    ensures twice { table_fault (only (with_types (type_of a t 20 (same_as naturals) ∷ type_of a t 21 (same_as naturals) ∷ []) ∷ []))
        ≡ fault Duplicate 21 }
{}

/// What the table refuses of functions and operations.
pub fn refusals_of_operations()
    ensures numbers_differ { table_fault (only (with_operations (operation f 20 1 ∷ operation f 21 2 ∷ []) ∷ [])) ≡ None }
    ensures twice { table_fault (only (with_operations (operation f 20 1 ∷ operation f 21 1 ∷ []) ∷ [])) ≡ fault Duplicate 21 }
    ensures of_two_kinds { table_fault (only (with_functions (function f 20 1 ∷ []) ∷ with_operations (operation f 21 2 ∷ []) ∷ []))
        ≡ fault Duplicate 21 }
    ensures and_a_variable { table_fault (only (with_variables (variable f 20 ∷ []) ∷ with_operations (operation f 21 0 ∷ []) ∷ []))
        ≡ fault Duplicate 21 }
    ensures patterns { table_fault (only (with_functions (function_with f 21 20 1 2 ∷ []) ∷ [])) ≡ fault WrongArity 20 }
    ensures at_one_place { table_fault (only (with_operations (operation_with Public f 20 2 2 ∷ operation_with Public f 21 1 2 ∷ []) ∷ [])) ≡ fault Duplicate 21 }
    ensures at_two_places { table_fault (only (with_functions (function_with f 21 20 2 2 ∷ function_with f 23 22 1 2 ∷ []) ∷ [])) ≡ fault WrongArity 22 }
    ensures no_patterns { table_fault (only (with_operations (operation_with Public f 20 1 0 ∷ []) ∷ [])) ≡ fault WrongArity 20 }
{}
