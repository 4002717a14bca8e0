// Tokens and what they are read as. Each is the contract of a function that does nothing.

ghost use Rattle.std.specs.Prelude.{◌≡◌, [], ◌∷◌, Some, None, pos};
ghost use Rattle.vdm_kinds.specs.declared.basic_type.BasicType.TheVariants as basic;
ghost use Rattle.vdm_kinds.specs.declared.sign.Sign.TheVariants as sign;
ghost use Rattle.abstract_syntax.specs.Literals.{whole_literal};
ghost use Rattle.abstract_syntax.specs.Expressions.{named, bracketed, apply, select, no_exprs, one_expr, no_defined, one_defined, bind_in, bound, literal_pattern, no_patterns, one_pattern};
ghost use Rattle.abstract_syntax.specs.Statements.{field_of, element_at, variable, block, assign, call, returns, let_then, let_be_then, if_then, cases_then, for_numbers, for_sequence, trap_exit, skips, errs, no_stmts, one_stmt, no_stmt, given_stmt, no_stmt_branches, one_stmt_branch, no_stmt_cases, one_stmt_case};
ghost use Rattle.grammar_words.specs.declared.word.Word.TheVariants as word;
ghost use Rattle.stmt_fronts.specs.WorkedFronts.{w, n, num};
ghost use Rattle.stmt_fronts.specs.WorkedTexts.{counting, buffer, adders, endless_call, gate, faulty_guard, threads, pair, handlers, clock, diamond, library, hosts, contracts};
ghost use Rattle.stmt_reading.specs.Worked.{stmt_read, classes_read, name, col, lit};

/// Statements, and tokens that are none.
pub fn worked_statements()
    ensures assigned { stmt_read (n 1 ∷ w word.Becomes ∷ num 1 ∷ []) ≡ Some (assign (variable (name 1) [] (col 1)) (lit 1 3) (col 1)) }
    ensures steps { stmt_read (n 1 ∷ w word.Dot ∷ n 2 ∷ w word.OpenRound ∷ num 1 ∷ w word.CloseRound ∷ w word.Becomes ∷ num 2 ∷ []) ≡ Some (assign (variable (name 1) (field_of (name 2) (col 3) (col 2) ∷ element_at (lit 1 5) (col 4) ∷ []) (col 1)) (lit 2 8) (col 1)) }
    ensures called { stmt_read (n 1 ∷ w word.Dot ∷ n 2 ∷ w word.OpenRound ∷ num 1 ∷ w word.CloseRound ∷ []) ≡ Some (call (apply (select (named (name 1) (col 1)) (name 2) (col 3) (col 2)) (one_expr (lit 1 5) no_exprs) (col 4)) (col 1)) }
    ensures no_call { stmt_read (n 1 ∷ w word.Dot ∷ n 2 ∷ []) ≡ None }
    ensures last_semicolon { stmt_read (w word.OpenRound ∷ w word.Skip ∷ w word.Semicolon ∷ w word.CloseRound ∷ []) ≡ Some (block [] (one_stmt (skips (col 2)) no_stmts) (col 1)) }
    ensures two_statements { stmt_read (w word.OpenRound ∷ w word.Skip ∷ w word.Semicolon ∷ w word.Error ∷ w word.CloseRound ∷ []) ≡ Some (block [] (one_stmt (skips (col 2)) (one_stmt (errs (col 4)) no_stmts)) (col 1)) }
    ensures two_semicolons { stmt_read (w word.OpenRound ∷ w word.Skip ∷ w word.Semicolon ∷ w word.Semicolon ∷ w word.CloseRound ∷ []) ≡ None }
    ensures head_in_brackets { stmt_read (w word.OpenRound ∷ n 1 ∷ w word.CloseRound ∷ w word.OpenRound ∷ num 1 ∷ w word.CloseRound ∷ []) ≡ Some (call (apply (bracketed (named (name 1) (col 2)) (col 1)) (one_expr (lit 1 5) no_exprs) (col 4)) (col 1)) }
    ensures call_in_block { stmt_read (w word.OpenRound ∷ n 1 ∷ w word.OpenRound ∷ num 1 ∷ w word.CloseRound ∷ w word.CloseRound ∷ []) ≡ Some (block [] (one_stmt (call (apply (named (name 1) (col 2)) (one_expr (lit 1 4) no_exprs) (col 3)) (col 2)) no_stmts) (col 1)) }
    ensures nearest_if { stmt_read (w word.If ∷ n 1 ∷ w word.Then ∷ w word.If ∷ n 2 ∷ w word.Then ∷ w word.Skip ∷ w word.Else ∷ w word.Error ∷ []) ≡ Some (if_then (named (name 1) (col 2)) (if_then (named (name 2) (col 5)) (skips (col 7)) no_stmt_branches (given_stmt (errs (col 9))) (col 4)) no_stmt_branches no_stmt (col 1)) }
    ensures elseif_inside { stmt_read (w word.If ∷ n 1 ∷ w word.Then ∷ w word.If ∷ n 2 ∷ w word.Then ∷ w word.Skip ∷ w word.Elseif ∷ n 1 ∷ w word.Then ∷ w word.Error ∷ w word.Else ∷ w word.Skip ∷ []) ≡ Some (if_then (named (name 1) (col 2)) (if_then (named (name 2) (col 5)) (skips (col 7)) (one_stmt_branch (named (name 1) (col 9)) (errs (col 11)) no_stmt_branches) (given_stmt (skips (col 13))) (col 4)) no_stmt_branches no_stmt (col 1)) }
    ensures both_if { stmt_read (w word.If ∷ n 1 ∷ w word.Then ∷ w word.If ∷ n 2 ∷ w word.Then ∷ w word.Skip ∷ w word.Else ∷ w word.Error ∷ w word.Else ∷ w word.Skip ∷ []) ≡ Some (if_then (named (name 1) (col 2)) (if_then (named (name 2) (col 5)) (skips (col 7)) no_stmt_branches (given_stmt (errs (col 9))) (col 4)) no_stmt_branches (given_stmt (skips (col 11))) (col 1)) }
    ensures returned { stmt_read (w word.Return ∷ []) ≡ Some (returns None (col 1)) }
    ensures returned_value { stmt_read (w word.Return ∷ num 1 ∷ []) ≡ Some (returns (Some (lit 1 2)) (col 1)) }
    ensures let_values { stmt_read (w word.Let ∷ n 1 ∷ w (word.Operator sign.Equal) ∷ num 1 ∷ w word.Comma ∷ n 2 ∷ w (word.Operator sign.Equal) ∷ num 2 ∷ w word.In ∷ w word.Skip ∷ []) ≡ Some (let_then (one_defined (bound (name 1) (col 2)) None (lit 1 4) (one_defined (bound (name 2) (col 6)) None (lit 2 8) no_defined)) (skips (col 10)) (col 1)) }
    ensures let_such { stmt_read (w word.Let ∷ n 1 ∷ w (word.Operator sign.InSet) ∷ n 2 ∷ w word.Be ∷ w word.St ∷ n 1 ∷ w word.In ∷ w word.Skip ∷ []) ≡ Some (let_be_then (bind_in (one_pattern (bound (name 1) (col 2)) no_patterns) (named (name 2) (col 4))) (Some (named (name 1) (col 7))) (skips (col 9)) (col 1)) }
    ensures cases_of { stmt_read (w word.Cases ∷ n 1 ∷ w word.Colon ∷ num 1 ∷ w word.Comma ∷ num 2 ∷ w word.Arrow ∷ w word.Skip ∷ w word.Comma ∷ w word.Others ∷ w word.Arrow ∷ w word.Error ∷ w word.End ∷ []) ≡ Some (cases_then (named (name 1) (col 2)) (one_stmt_case (one_pattern (literal_pattern (whole_literal (pos 1)) (col 4)) (one_pattern (literal_pattern (whole_literal (pos 2)) (col 6)) no_patterns)) (skips (col 8)) no_stmt_cases) (given_stmt (errs (col 12))) (col 1)) }
    ensures nested_traps { stmt_read (w word.Trap ∷ n 1 ∷ w word.With ∷ w word.Trap ∷ n 2 ∷ w word.With ∷ w word.Skip ∷ w word.In ∷ w word.Error ∷ w word.In ∷ w word.Skip ∷ []) ≡ Some (trap_exit (bound (name 1) (col 2)) (trap_exit (bound (name 2) (col 5)) (skips (col 7)) (errs (col 9)) (col 4)) (skips (col 11)) (col 1)) }
    ensures for_numbers { stmt_read (w word.For ∷ n 1 ∷ w (word.Operator sign.Equal) ∷ num 1 ∷ w word.To ∷ num 2 ∷ w word.By ∷ num 3 ∷ w word.Do ∷ w word.Skip ∷ []) ≡ Some (for_numbers (name 1) (col 2) (lit 1 4) (lit 2 6) (Some (lit 3 8)) (skips (col 10)) (col 1)) }
    ensures for_sequence { stmt_read (w word.For ∷ n 1 ∷ w word.In ∷ n 2 ∷ w word.Do ∷ w word.Skip ∷ []) ≡ Some (for_sequence (bound (name 1) (col 2)) (named (name 2) (col 4)) (skips (col 6)) (col 1)) }
{}

/// Specifications, by how many classes they have, and tokens that are none.
pub fn worked_specifications()
    ensures counting { classes_read counting ≡ Some 1 }
    ensures buffer { classes_read buffer ≡ Some 4 }
    ensures adders { classes_read adders ≡ Some 3 }
    ensures endless_call { classes_read endless_call ≡ Some 1 }
    ensures gate { classes_read gate ≡ Some 3 }
    ensures faulty_guard { classes_read faulty_guard ≡ Some 1 }
    ensures threads { classes_read threads ≡ Some 3 }
    ensures pair { classes_read pair ≡ Some 1 }
    ensures handlers { classes_read handlers ≡ Some 1 }
    ensures clock { classes_read clock ≡ Some 2 }
    ensures diamond { classes_read diamond ≡ Some 4 }
    ensures library { classes_read library ≡ Some 4 }
    ensures hosts { classes_read hosts ≡ Some 1 }
    ensures contracts { classes_read contracts ≡ Some 1 }
    ensures nothing { classes_read ([]) ≡ Some 0 }
    ensures other_name { classes_read (w word.Class ∷ n 1 ∷ w word.End ∷ n 2 ∷ []) ≡ None }
    ensures other_function { classes_read (w word.Class ∷ n 1 ∷ w word.Functions ∷ n 2 ∷ w word.Colon ∷ w (word.Basic basic.Nat) ∷ w word.Arrow ∷ w (word.Basic basic.Nat) ∷ n 3 ∷ w word.OpenRound ∷ n 4 ∷ w word.CloseRound ∷ w word.DoubleEqual ∷ n 4 ∷ w word.End ∷ n 1 ∷ []) ≡ None }
    ensures lone_semicolon { classes_read (w word.Class ∷ n 1 ∷ w word.Values ∷ w word.Semicolon ∷ w word.End ∷ n 1 ∷ []) ≡ None }
    ensures no_semicolon { classes_read (w word.Class ∷ n 1 ∷ w word.Values ∷ n 2 ∷ w (word.Operator sign.Equal) ∷ num 1 ∷ n 3 ∷ w (word.Operator sign.Equal) ∷ num 2 ∷ w word.End ∷ n 1 ∷ []) ≡ None }
    ensures static_twice { classes_read (w word.Class ∷ n 1 ∷ w word.Values ∷ w word.Static ∷ w word.Public ∷ w word.Static ∷ n 2 ∷ w (word.Operator sign.Equal) ∷ num 1 ∷ w word.End ∷ n 1 ∷ []) ≡ None }
    ensures head_of_list { classes_read (w word.Class ∷ n 1 ∷ w word.Operations ∷ n 2 ∷ w word.Colon ∷ w word.OpenRound ∷ w word.CloseRound ∷ w word.DoubleArrow ∷ w word.OpenRound ∷ w word.CloseRound ∷ n 2 ∷ w word.OpenRound ∷ w word.CloseRound ∷ w word.DoubleEqual ∷ w word.OpenSquare ∷ num 1 ∷ w word.CloseSquare ∷ w word.OpenRound ∷ num 2 ∷ w word.CloseRound ∷ w word.End ∷ n 1 ∷ []) ≡ None }
{}
