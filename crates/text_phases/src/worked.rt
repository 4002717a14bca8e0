// Trees that are worked out: the first form that is not built, and what is refused first.

ghost use Rattle.std.specs.Prelude.{◌≡◌, true, false, [], ◌∷◌, Some, None};
ghost use Rattle.vdm_kinds.specs.NameList.{io};
ghost use Rattle.vdm_kinds.specs.declared.access.Level.TheVariants.{Private, Protected, Public};
ghost use Rattle.vdm_kinds.specs.declared.basic_type.BasicType.TheVariants.{Nat, Token};
ghost use Rattle.vdm_kinds.specs.declared.counter.Counter.TheVariants.{Finishes};
ghost use Rattle.vdm_kinds.specs.declared.sign.Sign.TheVariants.{Equal, Plus, Minus, Negative};
ghost use Rattle.vdm_kinds.specs.declared.spec_kind.SpecKind.TheVariants.{LeftOut, UnknownName, Duplicate};
ghost use Rattle.vdm_lexer.specs.Lexemes.{fault_at};
ghost use Rattle.abstract_syntax.specs.Types.{basic_type, bracketed_type};
ghost use Rattle.abstract_syntax.specs.Expressions.{qualified, old_value, self_object, current_time, result_value, bracketed, prefixed, set_comprehension, map_enumeration, make_record, modify_record, is_of_type, is_of_named, is_of_basic, is_of_class, same_class, history, select_of_class, let_in, let_be, def_in, if_else, cases_of, for_all, no_exprs, one_expr, left_out, given_expr, no_maplets, one_maplet, no_field_values, one_field_value, no_defined, one_defined, no_branches, one_branch, no_cases, one_case, bind_in, any_value, bound, equal_to, map_pattern, tuple_pattern, record_pattern, no_patterns, one_pattern, no_maplet_patterns, one_maplet_pattern};
ghost use Rattle.abstract_syntax.specs.Statements.{field_of, element_at, variable, variable_of_class, assign, assign_together, call, block, returns, exits, let_then, let_be_then, def_then, cases_then, while_do, for_set, for_sequence, trap_exit, trap_exits, always_after, in_parallel, start_thread, start_threads, skips, errs, no_stmt, given_stmt, no_stmt_branches, one_stmt_branch, no_stmt_cases, one_stmt_case, no_handlers, one_handler};
ghost use Rattle.abstract_syntax.specs.Classes.{variable_item, invariant_item, not_yet_specified, subclass_responsibility, procedural, types, values, variables, functions, operations, thread_of, synchronisation};
ghost use Rattle.class_meaning.specs.Classes.{print, println};
ghost use Rattle.text_phases.specs.Built.{unbuilt_in_expr, unbuilt_if_given, unbuilt_in_stmt, unbuilt_in_function, unbuilt_in_variable, unbuilt_in_operation, unbuilt_in_spec};
ghost use Rattle.text_phases.specs.Phases.{checks_fault, main_checks_fault};
ghost use Rattle.text_phases.specs.Worked.{at, a_counter, name, class_name, n, op, one, truth, use_of, sign_between, applied, selected, new_of, an_argument, call_of_new, a_bind, type_at, record_at, listed, in_block, set_to, setting_to, call_to, unbuilt_call, gives, a_local, chosen, another_branch, counted, nat_type, a_variable, static_new, an_operation, a_type, type_where, a_value, a_function, a_class, spec_of, spec_of_two, spec_below, spec_with, spec_over};

/// Expressions: names, what is called, selected and made.
pub fn built_expressions()
    ensures time { unbuilt_in_expr true (current_time (at 1)) ≡ None }
    ensures in_brackets { unbuilt_in_expr true (bracketed (a_counter (at 2)) (at 1)) ≡ Some (at 2) }
    ensures me { unbuilt_in_expr true (selected (self_object (at 1)) op 5) ≡ None }
    ensures old { unbuilt_in_expr true (sign_between (old_value n (at 1)) Plus 4 (one 6)) ≡ None }
    ensures counter { unbuilt_in_expr true (sign_between (one 1) Plus 3 (history Finishes [] (at 5))) ≡ Some (at 5) }
    ensures of_a_class { unbuilt_in_expr true (qualified class_name op (at 3) (at 1)) ≡ None }
    ensures of_io { unbuilt_in_expr true (applied (qualified io op (at 4) (at 1)) (an_argument 9) 8) ≡ None }
    ensures result { unbuilt_in_expr true (sign_between (result_value (at 1)) Plus 8 (use_of n 10)) ≡ None }
    ensures selection { unbuilt_in_expr true (selected (use_of n 1) op 2) ≡ None }
    ensures on_the_right { unbuilt_in_expr true (sign_between (one 1) Plus 3 (selected (a_counter (at 5)) op 9)) ≡ Some (at 5) }
    ensures in_what_is_selected { unbuilt_in_expr true (selected (a_counter (at 1)) op 5) ≡ Some (at 1) }
    ensures called_again { unbuilt_in_expr true (applied (selected (call_of_new no_exprs) op 13) no_exprs 16) ≡ None }
    ensures called_with_argument { unbuilt_in_expr true (call_of_new (an_argument 12)) ≡ None }
    ensures printed { unbuilt_in_expr true (applied (selected (new_of no_exprs 1) print 8) (an_argument 15) 14) ≡ None }
    ensures printed_line { unbuilt_in_expr true (applied (selected (use_of n 1) println 2) (one_expr (a_counter (at 11)) no_exprs) 10) ≡ Some (at 11) }
    ensures before_printed { unbuilt_in_expr true (applied (selected (a_counter (at 1)) print 5) (an_argument 12) 11) ≡ Some (at 1) }
    ensures nothing_printed { unbuilt_in_expr true (applied (selected (use_of n 1) print 2) no_exprs 8) ≡ None }
    ensures selected_alone { unbuilt_in_expr true (selected (use_of n 1) println 2) ≡ None }
    ensures by_name_alone { unbuilt_in_expr true (applied (use_of print 1) (an_argument 7) 6) ≡ None }
    ensures called_of_class { unbuilt_in_expr true (applied (select_of_class (use_of n 1) class_name (at 3) op (at 5) (at 2)) no_exprs 7) ≡ None }
    ensures selected_of_io { unbuilt_in_expr true (applied (select_of_class (use_of n 1) io (at 3) op (at 6) (at 2)) (one_expr (a_counter (at 9)) no_exprs) 8) ≡ Some (at 9) }
    ensures before_its_class { unbuilt_in_expr true (select_of_class (a_counter (at 1)) io (at 6) op (at 9) (at 5)) ≡ Some (at 1) }
    ensures argument { unbuilt_in_expr true (applied (use_of op 1) (one_expr (one 4) (one_expr (a_counter (at 7)) no_exprs)) 3) ≡ Some (at 7) }
    ensures head_first { unbuilt_in_expr true (applied (selected (a_counter (at 1)) op 5) (one_expr (a_counter (at 9)) no_exprs) 8) ≡ Some (at 1) }
    ensures new_with_argument { unbuilt_in_expr true (applied (selected (new_of (an_argument 7) 1) op 9) no_exprs 12) ≡ None }
    ensures new_with_sum { unbuilt_in_expr true (new_of (one_expr (sign_between (one 7) Minus 9 (a_counter (at 11))) no_exprs) 1) ≡ Some (at 11) }
    ensures new_where_none_may_be { unbuilt_in_expr false (sign_between (one 1) Plus 3 (new_of (one_expr (a_counter (at 11)) no_exprs) 5)) ≡ Some (at 5) }
    ensures before_new { unbuilt_in_expr false (sign_between (a_counter (at 1)) Plus 6 (new_of no_exprs 8)) ≡ Some (at 1) }
    ensures called { unbuilt_in_expr true (call_of_new no_exprs) ≡ None }
    ensures difference { unbuilt_in_expr true (sign_between (truth 1) Minus 6 (bracketed (use_of n 9) (at 8))) ≡ None }
    ensures initial { unbuilt_if_given (Some (prefixed Negative (a_counter (at 3)) (at 1))) ≡ Some (at 3) }
    ensures no_initial { unbuilt_if_given None ≡ None }
{}

/// Records, and tests of types and classes.
pub fn built_records()
    ensures made { unbuilt_in_expr true (make_record (type_at 1) (one_expr (one 6) (one_expr (use_of n 9) no_exprs)) (at 1)) ≡ None }
    ensures field { unbuilt_in_expr true (make_record (type_at 1) (one_expr (one 6) (one_expr (a_counter (at 9)) no_exprs)) (at 1)) ≡ Some (at 9) }
    ensures changed { unbuilt_in_expr true (modify_record (use_of n 4) (one_field_value op (at 7) (one 14) no_field_values) (at 1)) ≡ None }
    ensures record_first { unbuilt_in_expr true (modify_record (a_counter (at 4)) (one_field_value op (at 10) (a_counter (at 17)) no_field_values) (at 1)) ≡ Some (at 4) }
    ensures second_value { unbuilt_in_expr true (modify_record (use_of n 4) (one_field_value op (at 7) (one 14) (one_field_value n (at 17) (a_counter (at 23)) no_field_values)) (at 1)) ≡ Some (at 23) }
    ensures of_type { unbuilt_in_expr true (is_of_type (a_counter (at 5)) nat_type (at 1)) ≡ Some (at 5) }
    ensures of_named { unbuilt_in_expr true (is_of_named (type_at 1) (a_counter (at 6)) (at 1)) ≡ Some (at 6) }
    ensures of_basic { unbuilt_in_expr true (is_of_basic Nat (a_counter (at 8)) (at 1)) ≡ Some (at 8) }
    ensures of_a_value { unbuilt_in_expr true (is_of_type (one 5) nat_type (at 1)) ≡ None }
    ensures of_class { unbuilt_in_expr true (is_of_class class_name (at 11) (use_of n 14) (at 1)) ≡ None }
    ensures in_class_test { unbuilt_in_expr true (is_of_class class_name (at 11) (a_counter (at 14)) (at 1)) ≡ Some (at 14) }
    ensures same { unbuilt_in_expr true (same_class (use_of op 11) (a_counter (at 17)) (at 1)) ≡ Some (at 17) }
    ensures same_first { unbuilt_in_expr true (same_class (a_counter (at 11)) (a_counter (at 17)) (at 1)) ≡ Some (at 11) }
{}

/// What is bound and what is chosen.
pub fn built_bindings()
    ensures element_first { unbuilt_in_expr true (set_comprehension (a_counter (at 2)) (a_bind (record_at 6) (a_counter (at 26))) left_out (at 1)) ≡ Some (at 2) }
    ensures pattern_next { unbuilt_in_expr true (set_comprehension (use_of n 2) (a_bind (record_at 6) (a_counter (at 26))) left_out (at 1)) ≡ Some (at 12) }
    ensures set_next { unbuilt_in_expr true (set_comprehension (use_of n 2) (a_bind (bound n (at 6)) (a_counter (at 20))) (given_expr (a_counter (at 30))) (at 1)) ≡ Some (at 20) }
    ensures condition_last { unbuilt_in_expr true (set_comprehension (use_of n 2) (a_bind (bound n (at 6)) (use_of n 20)) (given_expr (a_counter (at 30))) (at 1)) ≡ Some (at 30) }
    ensures in_pattern { unbuilt_in_expr true (for_all (a_bind (tuple_pattern (one_pattern (bound n (at 9)) (one_pattern (equal_to (a_counter (at 13)) (at 12)) no_patterns)) (at 6)) (use_of n 20)) (truth 30) (at 1)) ≡ Some (at 13) }
    ensures in_map_pattern { unbuilt_in_expr true (def_in (map_pattern (one_maplet_pattern (bound n (at 6)) (record_at 12) no_maplet_patterns) (at 5)) (use_of n 30) (truth 40) (at 1)) ≡ Some (at 18) }
    ensures record { unbuilt_in_expr true (def_in (record_pattern (type_at 5) (one_pattern (bound n (at 10)) no_patterns) (at 5)) (use_of op 15) (truth 20) (at 1)) ≡ None }
    ensures typed { unbuilt_in_expr true (let_in (one_defined (bound n (at 5)) (Some nat_type) (a_counter (at 30)) no_defined) (one 40) (at 1)) ≡ Some (at 30) }
    ensures untyped { unbuilt_in_expr true (let_in (one_defined (bound n (at 5)) None (one 30) (one_defined (bound op (at 33)) (Some nat_type) (one 37) no_defined)) (a_counter (at 40)) (at 1)) ≡ Some (at 40) }
    ensures chosen { unbuilt_in_expr true (if_else (truth 4) (one 10) (one_branch (truth 20) (a_counter (at 30)) no_branches) (a_counter (at 40)) (at 1)) ≡ Some (at 30) }
    ensures alternatives { unbuilt_in_expr true (cases_of (use_of n 7) (one_case (one_pattern (bound op (at 10)) (one_pattern (record_at 14) no_patterns)) (a_counter (at 30)) no_cases) (given_expr (a_counter (at 40))) (at 1)) ≡ Some (at 20) }
    ensures others { unbuilt_in_expr true (cases_of (use_of n 7) (one_case (one_pattern (bound op (at 10)) no_patterns) (one 20) no_cases) (given_expr (a_counter (at 40))) (at 1)) ≡ Some (at 40) }
    ensures maplet { unbuilt_in_expr true (map_enumeration (one_maplet (one 2) (one 8) (one_maplet (one 11) (a_counter (at 17)) no_maplets)) (at 1)) ≡ Some (at 17) }
    ensures choice { unbuilt_in_expr true (let_be (bind_in (one_pattern (any_value (at 5)) no_patterns) (use_of n 14)) left_out (one 20) (at 1)) ≡ None }
{}

/// Statements.
pub fn built_statements()
    ensures skip { unbuilt_in_stmt (skips (at 1)) ≡ None }
    ensures error { unbuilt_in_stmt (errs (at 1)) ≡ None }
    ensures value { unbuilt_in_stmt (set_to n (a_counter (at 6)) 1) ≡ Some (at 6) }
    ensures argument { unbuilt_in_stmt (call (applied (use_of op 1) (one_expr (a_counter (at 4)) no_exprs) 3) (at 1)) ≡ Some (at 4) }
    ensures head { unbuilt_in_stmt (call (applied (selected (a_counter (at 1)) op 5) no_exprs 8) (at 1)) ≡ Some (at 1) }
    ensures on_another { unbuilt_in_stmt (call (applied (selected (use_of n 1) op 2) (an_argument 6) 5) (at 1)) ≡ None }
    ensures twice { unbuilt_in_stmt (call (applied (applied (use_of op 1) no_exprs 3) no_exprs 5) (at 1)) ≡ None }
    ensures nested { unbuilt_in_stmt (in_block (set_to n (truth 7) 2 ∷ in_block (call_to op 11 ∷ unbuilt_call 17 ∷ []) 10 ∷ []) 1) ≡ Some (at 17) }
    ensures no_value { unbuilt_in_stmt (in_block (returns None (at 2) ∷ exits None (at 10) ∷ gives (one 23) 16 ∷ []) 1) ≡ None }
    ensures returned { unbuilt_in_stmt (gives (a_counter (at 8)) 1) ≡ Some (at 8) }
    ensures exited { unbuilt_in_stmt (exits (Some (a_counter (at 6))) (at 1)) ≡ Some (at 6) }
    ensures condition { unbuilt_in_stmt (chosen (a_counter (at 4)) (unbuilt_call 14) no_stmt_branches no_stmt) ≡ Some (at 4) }
    ensures first_branch { unbuilt_in_stmt (chosen (truth 4) (unbuilt_call 14) (another_branch 30) (given_stmt (unbuilt_call 50))) ≡ Some (at 14) }
    ensures other_condition { unbuilt_in_stmt (chosen (truth 4) (skips (at 14)) (another_branch 30) (given_stmt (unbuilt_call 50))) ≡ Some (at 30) }
    ensures second_branch { unbuilt_in_stmt (chosen (truth 4) (skips (at 14)) (one_stmt_branch (truth 30) (unbuilt_call 40) no_stmt_branches) no_stmt) ≡ Some (at 40) }
    ensures otherwise { unbuilt_in_stmt (chosen (truth 4) (skips (at 14)) (one_stmt_branch (truth 30) (skips (at 40)) no_stmt_branches) (given_stmt (unbuilt_call 50)))
        ≡ Some (at 50) }
    ensures no_else { unbuilt_in_stmt (chosen (truth 4) (skips (at 14)) no_stmt_branches no_stmt) ≡ None }
    ensures while_condition { unbuilt_in_stmt (while_do (a_counter (at 7)) (unbuilt_call 15) (at 1)) ≡ Some (at 7) }
    ensures while_body { unbuilt_in_stmt (while_do (truth 7) (unbuilt_call 15) (at 1)) ≡ Some (at 15) }
    ensures from { unbuilt_in_stmt (counted (a_counter (at 9)) (a_counter (at 20)) (Some (a_counter (at 30))) (unbuilt_call 40)) ≡ Some (at 9) }
    ensures to { unbuilt_in_stmt (counted (one 9) (a_counter (at 20)) (Some (a_counter (at 30))) (unbuilt_call 40)) ≡ Some (at 20) }
    ensures by { unbuilt_in_stmt (counted (one 9) (one 20) (Some (a_counter (at 30))) (unbuilt_call 40)) ≡ Some (at 30) }
    ensures round { unbuilt_in_stmt (counted (one 9) (one 20) None (unbuilt_call 40)) ≡ Some (at 40) }
    ensures rounds { unbuilt_in_stmt (counted (one 9) (one 20) (Some (one 30)) (skips (at 40))) ≡ None }
    ensures last_first { unbuilt_in_stmt (always_after (unbuilt_call 8) (unbuilt_call 30) (at 1)) ≡ Some (at 8) }
    ensures after_body { unbuilt_in_stmt (always_after (skips (at 8)) (unbuilt_call 30) (at 1)) ≡ Some (at 30) }
    ensures parallel { unbuilt_in_stmt (in_parallel (listed (skips (at 4) ∷ unbuilt_call 10 ∷ [])) (at 1)) ≡ Some (at 10) }
    ensures started { unbuilt_in_stmt (start_thread (a_counter (at 7)) (at 1)) ≡ Some (at 7) }
    ensures all_started { unbuilt_in_stmt (start_threads (use_of n 11) (at 1)) ≡ None }
{}

/// Assignments, to whole variables and into them, one or several.
pub fn built_assignments()
    ensures step { unbuilt_in_stmt (assign (variable n (element_at (one 3) (at 2) ∷ []) (at 1)) (a_counter (at 8)) (at 1)) ≡ Some (at 8) }
    ensures index { unbuilt_in_stmt (assign (variable n (field_of op (at 3) (at 2) ∷ element_at (a_counter (at 7)) (at 6) ∷ []) (at 1)) (a_counter (at 15)) (at 1)) ≡ Some (at 7) }
    ensures second_index { unbuilt_in_stmt (assign (variable n (element_at (one 3) (at 2) ∷ element_at (a_counter (at 6)) (at 5) ∷ []) (at 1)) (a_counter (at 15)) (at 1)) ≡ Some (at 6) }
    ensures field { unbuilt_in_stmt (assign (variable n (field_of op (at 3) (at 2) ∷ []) (at 1)) (one 8) (at 1)) ≡ None }
    ensures of_class { unbuilt_in_stmt (assign (variable_of_class class_name n (at 3) (element_at (one 5) (at 4) ∷ []) (at 1)) (one 11) (at 1)) ≡ None }
    ensures of_io { unbuilt_in_stmt (assign (variable_of_class io n (at 4) (element_at (a_counter (at 6)) (at 5) ∷ []) (at 1)) (one 15) (at 1)) ≡ Some (at 6) }
    ensures together { unbuilt_in_stmt (assign_together (setting_to n (one 13) 8 ∷ setting_to op (a_counter (at 21)) 16 ∷ []) (at 1)) ≡ Some (at 21) }
    ensures target_first { unbuilt_in_stmt (assign_together (record { target = variable n (element_at (a_counter (at 10)) (at 9) ∷ []) (at 8); value = a_counter (at 19) } ∷ []) (at 1))
        ≡ Some (at 10) }
    ensures none_of_two { unbuilt_in_stmt (assign_together (setting_to n (one 13) 8 ∷ setting_to op (one 21) 16 ∷ []) (at 1)) ≡ None }
{}

/// Blocks with local variables, and statements that bind names or choose.
pub fn built_blocks()
    ensures initial { unbuilt_in_stmt (block (record { locals = a_local n (Some (a_counter (at 15))) 6 ∷ []; place = at 2 } ∷ []) (listed (unbuilt_call 30 ∷ [])) (at 1)) ≡ Some (at 15) }
    ensures second_local { unbuilt_in_stmt (block (record { locals = a_local n None 6 ∷ a_local op (Some (a_counter (at 25))) 16 ∷ []; place = at 2 } ∷ []) (listed (skips (at 40) ∷ [])) (at 1)) ≡ Some (at 25) }
    ensures second_word { unbuilt_in_stmt (block (record { locals = a_local n None 6 ∷ []; place = at 2 } ∷ record { locals = a_local op (Some (a_counter (at 25))) 20 ∷ []; place = at 16 } ∷ []) (listed (unbuilt_call 40 ∷ [])) (at 1)) ≡ Some (at 25) }
    ensures behind_locals { unbuilt_in_stmt (block (record { locals = a_local n (Some (one 15)) 6 ∷ []; place = at 2 } ∷ []) (listed (skips (at 30) ∷ unbuilt_call 40 ∷ [])) (at 1)) ≡ Some (at 40) }
    ensures defined { unbuilt_in_stmt (let_then (one_defined (record_at 5) (Some nat_type) (a_counter (at 30)) no_defined) (unbuilt_call 40) (at 1)) ≡ Some (at 11) }
    ensures defined_value { unbuilt_in_stmt (let_then (one_defined (bound n (at 5)) None (one 9) (one_defined (bound op (at 12)) None (a_counter (at 16)) no_defined)) (unbuilt_call 40) (at 1)) ≡ Some (at 16) }
    ensures let_body { unbuilt_in_stmt (let_then (one_defined (bound n (at 5)) None (one 9) no_defined) (unbuilt_call 40) (at 1)) ≡ Some (at 40) }
    ensures choice { unbuilt_in_stmt (let_be_then (bind_in (one_pattern (record_at 5) no_patterns) (a_counter (at 25))) None (unbuilt_call 40) (at 1)) ≡ Some (at 11) }
    ensures choice_condition { unbuilt_in_stmt (let_be_then (bind_in (one_pattern (bound n (at 5)) no_patterns) (use_of op 14)) (Some (a_counter (at 23))) (unbuilt_call 40) (at 1)) ≡ Some (at 23) }
    ensures choice_body { unbuilt_in_stmt (let_be_then (bind_in (one_pattern (bound n (at 5)) no_patterns) (use_of op 14)) None (skips (at 40)) (at 1)) ≡ None }
    ensures def_value { unbuilt_in_stmt (def_then (bound n (at 5)) (a_counter (at 9)) (unbuilt_call 40) (at 1)) ≡ Some (at 9) }
    ensures def_pattern { unbuilt_in_stmt (def_then (record_at 5) (a_counter (at 25)) (unbuilt_call 40) (at 1)) ≡ Some (at 11) }
    ensures subject { unbuilt_in_stmt (cases_then (a_counter (at 7)) (one_stmt_case (one_pattern (record_at 10) no_patterns) (unbuilt_call 30) no_stmt_cases) no_stmt (at 1)) ≡ Some (at 7) }
    ensures alternative { unbuilt_in_stmt (cases_then (one 7) (one_stmt_case (one_pattern (bound n (at 10)) (one_pattern (record_at 13) no_patterns)) (unbuilt_call 30) no_stmt_cases) no_stmt (at 1)) ≡ Some (at 19) }
    ensures second_case { unbuilt_in_stmt (cases_then (one 7) (one_stmt_case (one_pattern (bound n (at 10)) no_patterns) (skips (at 15)) (one_stmt_case (one_pattern (bound n (at 21)) no_patterns) (unbuilt_call 26) no_stmt_cases)) (given_stmt (unbuilt_call 50)) (at 1))
        ≡ Some (at 26) }
    ensures others { unbuilt_in_stmt (cases_then (one 7) no_stmt_cases (given_stmt (unbuilt_call 20)) (at 1)) ≡ Some (at 20) }
{}

/// Loops over sets and sequences, and handlers of exits.
pub fn built_handlers()
    ensures all_of { unbuilt_in_stmt (for_set (bound n (at 9)) (use_of n 18) (skips (at 30)) (at 1)) ≡ None }
    ensures all_of_pattern { unbuilt_in_stmt (for_set (record_at 9) (a_counter (at 28)) (unbuilt_call 40) (at 1)) ≡ Some (at 15) }
    ensures set { unbuilt_in_stmt (for_set (bound n (at 9)) (a_counter (at 18)) (unbuilt_call 40) (at 1)) ≡ Some (at 18) }
    ensures items_of { unbuilt_in_stmt (for_sequence (bound n (at 5)) (use_of n 10) (skips (at 30)) (at 1)) ≡ None }
    ensures items { unbuilt_in_stmt (for_sequence (bound n (at 5)) (a_counter (at 10)) (unbuilt_call 40) (at 1)) ≡ Some (at 10) }
    ensures for_each { unbuilt_in_stmt (for_sequence (bound n (at 5)) (use_of n 10) (unbuilt_call 40) (at 1)) ≡ Some (at 40) }
    ensures trapped { unbuilt_in_stmt (trap_exit (bound n (at 6)) (skips (at 13)) (errs (at 21)) (at 1)) ≡ None }
    ensures trapped_pattern { unbuilt_in_stmt (trap_exit (record_at 6) (unbuilt_call 25) (unbuilt_call 40) (at 1)) ≡ Some (at 12) }
    ensures handler { unbuilt_in_stmt (trap_exit (bound n (at 6)) (unbuilt_call 25) (unbuilt_call 40) (at 1)) ≡ Some (at 25) }
    ensures trap_body { unbuilt_in_stmt (trap_exit (bound n (at 6)) (skips (at 25)) (unbuilt_call 40) (at 1)) ≡ Some (at 40) }
    ensures first_handler { unbuilt_in_stmt (trap_exits (one_handler (record_at 7) (unbuilt_call 25) no_handlers) (unbuilt_call 50) (at 1)) ≡ Some (at 13) }
    ensures second_handler { unbuilt_in_stmt (trap_exits (one_handler (bound n (at 7)) (skips (at 13)) (one_handler (bound n (at 20)) (unbuilt_call 26) no_handlers)) (unbuilt_call 50) (at 1)) ≡ Some (at 26) }
    ensures tixe_body { unbuilt_in_stmt (trap_exits (one_handler (bound n (at 7)) (skips (at 13)) no_handlers) (unbuilt_call 50) (at 1)) ≡ Some (at 50) }
{}

/// Operations.
pub fn built_operations()
    ensures returned { unbuilt_in_spec (spec_with None (in_block (gives (one 59) 52 ∷ []) 51)) ≡ None }
    ensures no_block { unbuilt_in_spec (spec_with (Some nat_type) (gives (one 58) 51)) ≡ None }
    ensures no_return { unbuilt_in_spec (spec_with (Some nat_type) (in_block (call_to op 52 ∷ []) 51)) ≡ None }
    ensures early { unbuilt_in_spec (spec_with (Some nat_type) (in_block (gives (one 59) 52 ∷ gives (a_counter (at 69)) 62 ∷ []) 51)) ≡ Some (at 69) }
    ensures in_value { unbuilt_in_spec (spec_with (Some nat_type) (in_block (gives (a_counter (at 59)) 52 ∷ []) 51)) ≡ Some (at 59) }
    ensures any_type { unbuilt_in_spec (spec_with (Some (basic_type Token (at 44))) (in_block (gives (one 59) 52 ∷ []) 51)) ≡ None }
    ensures protected { unbuilt_in_operation (record (an_operation op None (skips (at 60)) 30) { access = record { is_static = false; level = Protected } })
        ≡ None }
    ensures private { unbuilt_in_operation (record (an_operation op None (skips (at 60)) 30) { access = record { is_static = false; level = Private } })
        ≡ None }
    ensures static_one { unbuilt_in_operation (record (an_operation op None (gives (new_of no_exprs 67) 60) 30) { access = record { is_static = true; level = Public } })
        ≡ None }
    ensures no_body { unbuilt_in_operation (record (an_operation op (Some (basic_type Token (at 44))) (skips (at 60)) 30) { body = not_yet_specified })
        ≡ None }
    ensures of_subclasses { unbuilt_in_operation (record (an_operation op None (skips (at 60)) 30) { body = subclass_responsibility; post = Some (a_counter (at 70)) })
        ≡ Some (at 70) }
    ensures constructor { unbuilt_in_operation (an_operation class_name None (call_to op 60) 30) ≡ None }
    ensures parameter { unbuilt_in_operation (record (an_operation op None (skips (at 60)) 30) { parameters = nat_type ∷ []; patterns = bound n (at 50) ∷ [] })
        ≡ None }
    ensures parameter_first { unbuilt_in_operation (record (an_operation op None (unbuilt_call 60) 30) { patterns = record_at 50 ∷ [] }) ≡ Some (at 56) }
    ensures conditions { unbuilt_in_operation (record (an_operation op None (call_to op 60) 30) { pre = Some (sign_between (one 70) Minus 72 (one 74)); post = Some (truth 80) })
        ≡ None }
    ensures pre { unbuilt_in_operation (record (an_operation op None (call_to op 60) 30) { pre = Some (a_counter (at 70)); post = Some (a_counter (at 80)) })
        ≡ Some (at 70) }
    ensures post { unbuilt_in_operation (record (an_operation op None (call_to op 60) 30) { pre = Some (truth 70); post = Some (a_counter (at 80)) }) ≡ Some (at 80) }
    ensures body_first { unbuilt_in_operation (record (an_operation op None (unbuilt_call 60) 30) { pre = Some (a_counter (at 70)) }) ≡ Some (at 60) }
{}

/// Types, values and functions, of any class.
pub fn built_functions()
    ensures type_alone { unbuilt_in_spec (spec_of (types (a_type 30 ∷ []) (at 9) ∷ [])) ≡ None }
    ensures with_invariant { unbuilt_in_spec (spec_of (types (a_type 30 ∷ type_where (bound n (at 64)) (truth 69) 50 ∷ []) (at 9) ∷ [])) ≡ None }
    ensures invariant_pattern { unbuilt_in_spec (spec_of (types (type_where (record_at 64) (a_counter (at 80)) 50 ∷ []) (at 9) ∷ [])) ≡ Some (at 70) }
    ensures invariant_condition { unbuilt_in_spec (spec_of (types (type_where (bound n (at 64)) (a_counter (at 69)) 50 ∷ type_where (record_at 94) (truth 99) 80 ∷ []) (at 9) ∷ []))
        ≡ Some (at 69) }
    ensures second_invariant { unbuilt_in_spec (spec_of (types (type_where (bound n (at 64)) (truth 69) 50 ∷ type_where (record_at 94) (truth 99) 80 ∷ []) (at 9) ∷ [])) ≡ Some (at 100) }
    ensures value { unbuilt_in_spec (spec_of (values (a_value (one 34) 30 ∷ a_value (a_counter (at 44)) 40 ∷ []) (at 9) ∷ [])) ≡ Some (at 44) }
    ensures pattern_first { unbuilt_in_function (a_function (record_at 50) (a_counter (at 70)) 30) ≡ Some (at 56) }
    ensures body { unbuilt_in_function (record (a_function (bound n (at 50)) (a_counter (at 56)) 30) { pre = Some (a_counter (at 70)) }) ≡ Some (at 56) }
    ensures pre { unbuilt_in_function (record (a_function (bound n (at 50)) (use_of n 56) 30) { pre = Some (a_counter (at 70)); post = Some (a_counter (at 80)) })
        ≡ Some (at 70) }
    ensures post { unbuilt_in_function (record (a_function (bound n (at 50)) (use_of n 56) 30) { post = Some (a_counter (at 80)) }) ≡ Some (at 80) }
    ensures measure { unbuilt_in_function (record (a_function (bound n (at 50)) (use_of n 56) 30) { measure = Some (a_counter (at 90)) }) ≡ None }
    ensures open { unbuilt_in_function (record (a_function (bound n (at 50)) (one 56) 30) { body = not_yet_specified }) ≡ None }
    ensures of_subclasses { unbuilt_in_function (record (a_function (bound n (at 50)) (one 56) 30) { body = subclass_responsibility; pre = Some (a_counter (at 90)) })
        ≡ Some (at 90) }
    ensures second { unbuilt_in_spec (spec_of (functions (a_function (bound n (at 50)) (use_of n 56) 30 ∷ a_function (bound n (at 80)) (a_counter (at 86)) 60 ∷ []) (at 9) ∷ []))
        ≡ Some (at 86) }
    ensures of_two { unbuilt_in_spec (spec_of_two (values (a_value (one 34) 30 ∷ []) (at 9) ∷ []) (functions (a_function (bound n (at 50)) (use_of n 56) 30 ∷ []) (at 9) ∷ []))
        ≡ None }
    ensures inherited { unbuilt_in_spec (spec_below n (functions (a_function (bound n (at 50)) (use_of n 56) 30 ∷ []) (at 29) ∷ [])) ≡ None }
{}

/// Variables, blocks and classes.
pub fn built_classes()
    ensures access_word { unbuilt_in_variable (record (a_variable n 37) { access = record { is_static = false; level = Public }; place = at 30 }) ≡ None }
    ensures static_one { unbuilt_in_variable (record (a_variable n 37) { access = record { is_static = true; level = Private }; place = at 30 }) ≡ None }
    ensures static_new { unbuilt_in_variable static_new ≡ Some (at 48) }
    ensures new { unbuilt_in_variable (record (a_variable n 37) { initial = Some (new_of no_exprs 48) }) ≡ None }
    ensures no_initial { unbuilt_in_variable (record (a_variable n 30) { declared = basic_type Token (at 34); initial = None }) ≡ None }
    ensures any_type { unbuilt_in_variable (record (a_variable n 30) { declared = bracketed_type (basic_type Token (at 35)) (at 34) }) ≡ None }
    ensures initial { unbuilt_in_variable (record (a_variable n 30) { initial = Some (a_counter (at 41)) }) ≡ Some (at 41) }
    ensures invariant { unbuilt_in_spec (spec_of (variables (invariant_item (truth 34) (at 30) ∷ []) (at 9) ∷ [])) ≡ None }
    ensures invariant_counter { unbuilt_in_spec (spec_of (variables (invariant_item (truth 34) (at 30) ∷ invariant_item (a_counter (at 54)) (at 50) ∷ []) (at 9) ∷ []))
        ≡ Some (at 54) }
    ensures invariant_new { unbuilt_in_spec (spec_of (variables (invariant_item (sign_between (new_of no_exprs 34) Equal 42 (new_of no_exprs 44)) (at 30) ∷ []) (at 9) ∷ []))
        ≡ Some (at 34) }
    ensures empty_block { unbuilt_in_spec (spec_of (variables [] (at 9) ∷ operations [] (at 29) ∷ [])) ≡ None }
    ensures other_block { unbuilt_in_spec (spec_of (types [] (at 9) ∷ operations (an_operation op None (unbuilt_call 60) 30 ∷ []) (at 20) ∷ [])) ≡ Some (at 60) }
    ensures behind_operations { unbuilt_in_spec (spec_of (operations (an_operation op None (call_to op 60) 30 ∷ []) (at 9)
        ∷ variables (variable_item (a_variable n 80) ∷ []) (at 70) ∷ [])) ≡ None }
    ensures second_block { unbuilt_in_spec (spec_of (variables (variable_item (a_variable n 30) ∷ []) (at 9)
        ∷ variables (variable_item (record (a_variable op 80) { initial = Some (a_counter (at 91)) }) ∷ []) (at 70) ∷ [])) ≡ Some (at 91) }
    ensures thread { unbuilt_in_spec (spec_of (thread_of (procedural (skips (at 16))) (at 9) ∷ [])) ≡ Some (at 9) }
    ensures synchronised { unbuilt_in_spec (spec_of (synchronisation [] (at 9) ∷ [])) ≡ Some (at 9) }
    ensures second_class { unbuilt_in_spec (spec_of_two [] []) ≡ None }
    ensures variables_of_two { unbuilt_in_spec (spec_of_two (variables (variable_item (a_variable n 30) ∷ []) (at 9) ∷ []) []) ≡ None }
    ensures operations_of_two { unbuilt_in_spec (spec_of_two [] (operations (an_operation op None (call_to op 60) 30 ∷ []) (at 9) ∷ [])) ≡ None }
    ensures superclass { unbuilt_in_spec (spec_below n []) ≡ None }
    ensures variables_below { unbuilt_in_spec (spec_below n (variables (variable_item (a_variable n 30) ∷ []) (at 29) ∷ [])) ≡ None }
    ensures below_io { unbuilt_in_spec (spec_below io (variables [] (at 29) ∷ [])) ≡ None }
    ensures whole { unbuilt_in_spec (spec_over None (set_to n (sign_between (use_of n 87) Plus 89 (one 91)) 82)) ≡ None }
    ensures nothing { unbuilt_in_spec (record { classes = [] }) ≡ None }
{}

/// What refuses a specification first: its table before its checks, and what is not built only behind an expression.
#[tactic(auto, unfolding(crate::specs::Phases::checks_fault, spec_checks::specs::Statements::check_stmt, spec_checks::specs::Statements::check_stmts, spec_checks::specs::Statements::check_maybe, spec_checks::specs::Statements::stmt_branches, spec_checks::specs::Statements::stmt_cases, spec_checks::specs::Statements::handlers_in, class_checks::specs::Expressions::check, class_checks::specs::Expressions::listed, class_checks::specs::Expressions::pairs_in, class_checks::specs::Expressions::changed, class_checks::specs::Expressions::applied, class_checks::specs::Expressions::where_true, class_checks::specs::Expressions::bound_by, class_checks::specs::Expressions::one_bound, class_checks::specs::Expressions::defined_in, class_checks::specs::Expressions::branches, class_checks::specs::Expressions::others_in, class_checks::specs::Expressions::cases_in, class_checks::specs::Expressions::givens, class_checks::specs::Expressions::givens_each, class_checks::specs::Expressions::givens_maplets, class_checks::specs::Results::after))]
pub fn refused_in_turn()
    ensures whole { checks_fault (spec_over None (set_to n (sign_between (use_of n 87) Plus 89 (one 91)) 82)) ≡ None }
    ensures io { checks_fault (record { classes = record (a_class []) { name = name 0 } ∷ [] }) ≡ Some (fault_at Duplicate (at 7)) }
    ensures second_variable { checks_fault (spec_of (variables (variable_item (a_variable n 30) ∷ variable_item (a_variable n 50) ∷ []) (at 9) ∷ []))
        ≡ Some (fault_at Duplicate (at 50)) }
    ensures table_first { checks_fault (spec_of (operations (an_operation op None (call_to n 50) 30
        ∷ an_operation op None (call_to op 90) 60 ∷ []) (at 9) ∷ [])) ≡ Some (fault_at Duplicate (at 67)) }
    ensures target { checks_fault (spec_over None (set_to op (use_of class_name 87) 82)) ≡ Some (fault_at UnknownName (at 82)) }
    ensures time { checks_fault (spec_over None (in_block (set_to n (current_time (at 88)) 83 ∷ []) 82)) ≡ None }
    ensures not_built { checks_fault (spec_of (synchronisation [] (at 9) ∷ [])) ≡ None }
{}

/// What refuses an expression first: its checks, and then what is not built of the specification.
#[tactic(auto, unfolding(crate::specs::Phases::main_checks_fault, class_checks::specs::Expressions::check, class_checks::specs::Expressions::listed, class_checks::specs::Expressions::pairs_in, class_checks::specs::Expressions::changed, class_checks::specs::Expressions::applied, class_checks::specs::Expressions::where_true, class_checks::specs::Expressions::bound_by, class_checks::specs::Expressions::one_bound, class_checks::specs::Expressions::defined_in, class_checks::specs::Expressions::branches, class_checks::specs::Expressions::others_in, class_checks::specs::Expressions::cases_in, class_checks::specs::Expressions::givens, class_checks::specs::Expressions::givens_each, class_checks::specs::Expressions::givens_maplets, class_checks::specs::Results::after))]
pub fn refused_behind()
    ensures unknown { main_checks_fault (spec_of (variables (variable_item static_new ∷ []) (at 9) ∷ [])) (sign_between (one 1) Plus 3 (use_of op 5)) ≡ Some (fault_at UnknownName (at 5)) }
    ensures not_built { main_checks_fault (spec_of (variables (variable_item static_new ∷ []) (at 9) ∷ [])) (sign_between (one 1) Minus 3 (one 5)) ≡ Some (fault_at LeftOut (at 48)) }
    ensures invariant { main_checks_fault (spec_of (variables (invariant_item (truth 34) (at 30) ∷ []) (at 9) ∷ [])) (sign_between (one 1) Minus 3 (one 5)) ≡ None }
    ensures time { main_checks_fault (spec_over None (call_to op 82)) (sign_between (one 1) Minus 3 (current_time (at 5))) ≡ None }
    ensures sum { main_checks_fault (spec_over None (call_to op 82)) (sign_between (one 1) Plus 3 (one 5)) ≡ None }
    ensures called { main_checks_fault (spec_over None (call_to op 82)) (call_of_new no_exprs) ≡ None }
    ensures no_class { main_checks_fault (record { classes = [] }) (call_of_new no_exprs) ≡ Some (fault_at UnknownName (at 5)) }
{}
