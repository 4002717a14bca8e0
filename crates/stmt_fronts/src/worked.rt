// Tokens and what is found of them. Each is the contract of a function that does nothing.

ghost use Rattle.std.specs.Prelude.{◌≡◌, true, false, [], ◌∷◌, ◌++◌, take};
ghost use Rattle.vdm_kinds.specs.declared.basic_type.BasicType.TheVariants as basic;
ghost use Rattle.vdm_kinds.specs.declared.counter.Counter.TheVariants as counter;
ghost use Rattle.vdm_kinds.specs.declared.sign.Sign.TheVariants as sign;
ghost use Rattle.grammar_words.specs.declared.word.Word.TheVariants as word;
ghost use Rattle.stmt_fronts.specs.declared.kind.Kind.TheVariants.{Stmt, Spec};
ghost use Rattle.stmt_fronts.specs.WorkedFronts.{worked, reaches, too_deep_at, repeated, w, n, num, quoted, made};
ghost use Rattle.stmt_fronts.specs.WorkedTexts.{counting, buffer, adders, endless_call, gate, faulty_guard, threads, pair, handlers, clock, diamond, library, hosts, contracts};

/// Statements that are single words, assignments and calls, returns and exits.
pub fn worked_statements()
    ensures nothing { worked Stmt ([]) ≡ reaches 0 false false }
    ensures skips { worked Stmt (w word.Skip ∷ []) ≡ reaches 1 true false }
    ensures errs { worked Stmt (w word.Error ∷ []) ≡ reaches 1 true false }
    ensures assigned { worked Stmt (n 1 ∷ w word.Becomes ∷ num 1 ∷ w word.Semicolon ∷ []) ≡ reaches 3 true false }
    ensures assigned_cut { worked Stmt (n 1 ∷ w word.Becomes ∷ []) ≡ reaches 2 false false }
    ensures steps { worked Stmt (n 1 ∷ w word.Dot ∷ n 2 ∷ w word.OpenRound ∷ num 1 ∷ w word.CloseRound ∷ w word.Dot ∷ n 3 ∷ w word.Becomes ∷ num 2 ∷ []) ≡ reaches 10 true false }
    ensures of_class { worked Stmt (n 1 ∷ w word.Backquote ∷ n 2 ∷ w word.OpenRound ∷ num 1 ∷ w word.CloseRound ∷ w word.Becomes ∷ num 2 ∷ []) ≡ reaches 8 true false }
    ensures two_indices { worked Stmt (n 1 ∷ w word.OpenRound ∷ num 1 ∷ w word.Comma ∷ num 2 ∷ w word.CloseRound ∷ w word.Becomes ∷ num 3 ∷ []) ≡ reaches 6 true false }
    ensures no_index { worked Stmt (n 1 ∷ w word.OpenRound ∷ w word.CloseRound ∷ w word.Becomes ∷ num 3 ∷ []) ≡ reaches 3 true false }
    ensures class_of_field { worked Stmt (n 1 ∷ w word.Dot ∷ n 2 ∷ w word.Backquote ∷ n 3 ∷ w word.Becomes ∷ num 1 ∷ []) ≡ reaches 5 false false }
    ensures old_target { worked Stmt (n 1 ∷ w word.Tilde ∷ w word.Becomes ∷ num 1 ∷ []) ≡ reaches 2 false false }
    ensures called { worked Stmt (n 1 ∷ w word.OpenRound ∷ num 1 ∷ w word.CloseRound ∷ []) ≡ reaches 4 true false }
    ensures called_with_none { worked Stmt (n 1 ∷ w word.OpenRound ∷ w word.CloseRound ∷ []) ≡ reaches 3 true false }
    ensures name_alone { worked Stmt (n 1 ∷ w word.Semicolon ∷ []) ≡ reaches 1 false false }
    ensures member { worked Stmt (n 1 ∷ w word.Dot ∷ n 2 ∷ w word.Semicolon ∷ []) ≡ reaches 3 false false }
    ensures member_called { worked Stmt (n 1 ∷ w word.Dot ∷ n 2 ∷ w word.Dot ∷ n 3 ∷ w word.OpenRound ∷ num 1 ∷ w word.Comma ∷ num 2 ∷ w word.CloseRound ∷ []) ≡ reaches 10 true false }
    ensures qualified { worked Stmt (n 1 ∷ w word.Backquote ∷ n 2 ∷ w word.OpenRound ∷ w word.CloseRound ∷ []) ≡ reaches 5 true false }
    ensures member_of_class { worked Stmt (n 1 ∷ w word.Dot ∷ n 2 ∷ w word.Backquote ∷ n 3 ∷ w word.OpenRound ∷ w word.CloseRound ∷ []) ≡ reaches 7 true false }
    ensures old_called { worked Stmt (n 1 ∷ w word.Tilde ∷ w word.OpenRound ∷ num 1 ∷ w word.CloseRound ∷ []) ≡ reaches 5 true false }
    ensures self_called { worked Stmt (w word.SelfWord ∷ w word.Dot ∷ n 1 ∷ w word.OpenRound ∷ w word.CloseRound ∷ []) ≡ reaches 5 true false }
    ensures new_called { worked Stmt (w word.New ∷ n 1 ∷ w word.OpenRound ∷ num 1 ∷ w word.CloseRound ∷ w word.Dot ∷ n 2 ∷ w word.OpenRound ∷ w word.CloseRound ∷ []) ≡ reaches 9 true false }
    ensures literal_called { worked Stmt (num 1 ∷ w word.OpenRound ∷ num 2 ∷ w word.CloseRound ∷ []) ≡ reaches 4 true false }
    ensures set_called { worked Stmt (w word.MakeTuple ∷ w word.OpenRound ∷ num 1 ∷ w word.Comma ∷ num 2 ∷ w word.CloseRound ∷ w word.DotNumber ∷ num 1 ∷ w word.OpenRound ∷ num 3 ∷ w word.CloseRound ∷ []) ≡ reaches 11 true false }
    ensures subsequence { worked Stmt (n 1 ∷ w word.OpenRound ∷ num 1 ∷ w word.Comma ∷ w word.Dots ∷ w word.Comma ∷ num 2 ∷ w word.CloseRound ∷ w word.Semicolon ∷ []) ≡ reaches 8 false false }
    ensures subsequence_called { worked Stmt (n 1 ∷ w word.OpenRound ∷ num 1 ∷ w word.Comma ∷ w word.Dots ∷ w word.Comma ∷ num 2 ∷ w word.CloseRound ∷ w word.OpenRound ∷ num 3 ∷ w word.CloseRound ∷ []) ≡ reaches 11 true false }
    ensures twice_called { worked Stmt (n 1 ∷ w word.OpenRound ∷ num 1 ∷ w word.CloseRound ∷ w word.OpenRound ∷ num 2 ∷ w word.CloseRound ∷ w word.Dot ∷ n 2 ∷ w word.OpenRound ∷ w word.CloseRound ∷ w (word.Operator sign.Plus) ∷ num 1 ∷ []) ≡ reaches 11 true false }
    ensures dot_last { worked Stmt (n 1 ∷ w word.OpenRound ∷ num 1 ∷ w word.CloseRound ∷ w word.Dot ∷ w word.OpenRound ∷ []) ≡ reaches 5 false false }
    ensures operator_first { worked Stmt (w (word.Operator sign.Minus) ∷ n 1 ∷ []) ≡ reaches 0 false false }
    ensures quantifier { worked Stmt (w word.Forall ∷ n 1 ∷ w (word.Operator sign.InSet) ∷ n 2 ∷ w word.Ampersand ∷ n 3 ∷ w word.OpenRound ∷ n 1 ∷ w word.CloseRound ∷ []) ≡ reaches 0 false false }
    ensures specification { worked Stmt (w word.OpenSquare ∷ w word.Pre ∷ w word.True ∷ []) ≡ reaches 0 false true }
    ensures returned { worked Stmt (w word.Return ∷ w word.Semicolon ∷ []) ≡ reaches 1 true false }
    ensures returned_value { worked Stmt (w word.Return ∷ n 1 ∷ w (word.Operator sign.Plus) ∷ num 1 ∷ w word.CloseRound ∷ []) ≡ reaches 4 true false }
    ensures exited { worked Stmt (w word.Exit ∷ w word.End ∷ []) ≡ reaches 1 true false }
    ensures exit_value { worked Stmt (w word.Exit ∷ quoted 1 ∷ []) ≡ reaches 2 true false }
    ensures assign_cut { worked Stmt (w word.Atomic ∷ w word.OpenRound ∷ n 1 ∷ w word.Becomes ∷ num 1 ∷ w word.Semicolon ∷ w word.CloseRound ∷ []) ≡ reaches 6 false false }
    ensures together { worked Stmt (w word.Atomic ∷ w word.OpenRound ∷ n 1 ∷ w word.Becomes ∷ num 1 ∷ w word.Semicolon ∷ n 2 ∷ w word.Backquote ∷ n 3 ∷ w word.Dot ∷ n 4 ∷ w word.Becomes ∷ num 2 ∷ w word.CloseRound ∷ []) ≡ reaches 14 true false }
    ensures started { worked Stmt (w word.Start ∷ w word.OpenRound ∷ w word.New ∷ n 1 ∷ w word.OpenRound ∷ w word.CloseRound ∷ w word.CloseRound ∷ []) ≡ reaches 7 true false }
    ensures all_started { worked Stmt (w word.StartList ∷ w word.OpenRound ∷ w word.OpenCurly ∷ n 1 ∷ w word.Comma ∷ n 2 ∷ w word.CloseCurly ∷ w word.CloseRound ∷ []) ≡ reaches 8 true false }
{}

/// A `(` begins a block or the bracketed head of a call, whichever goes on.
pub fn worked_brackets()
    ensures one_block { worked Stmt (w word.OpenRound ∷ w word.Skip ∷ w word.CloseRound ∷ []) ≡ reaches 3 true false }
    ensures last_semicolon { worked Stmt (w word.OpenRound ∷ w word.Skip ∷ w word.Semicolon ∷ w word.CloseRound ∷ []) ≡ reaches 4 true false }
    ensures two_semicolons { worked Stmt (w word.OpenRound ∷ w word.Skip ∷ w word.Semicolon ∷ w word.Semicolon ∷ w word.CloseRound ∷ []) ≡ reaches 3 false false }
    ensures empty_block { worked Stmt (w word.OpenRound ∷ w word.CloseRound ∷ []) ≡ reaches 1 false false }
    ensures locals { worked Stmt (w word.OpenRound ∷ w word.Dcl ∷ n 1 ∷ w word.Colon ∷ w (word.Basic basic.Nat) ∷ w word.Becomes ∷ num 1 ∷ w word.Comma ∷ n 2 ∷ w word.Colon ∷ w word.OpenSquare ∷ n 3 ∷ w word.CloseSquare ∷ w word.Semicolon ∷ w word.Dcl ∷ n 4 ∷ w word.Colon ∷ w (word.Basic basic.Nat) ∷ w word.Semicolon ∷ n 1 ∷ w word.Becomes ∷ n 2 ∷ w word.Semicolon ∷ w word.Skip ∷ w word.CloseRound ∷ []) ≡ reaches 25 true false }
    ensures locals_alone { worked Stmt (w word.OpenRound ∷ w word.Dcl ∷ n 1 ∷ w word.Colon ∷ w (word.Basic basic.Nat) ∷ w word.CloseRound ∷ []) ≡ reaches 5 false false }
    ensures no_statement { worked Stmt (w word.OpenRound ∷ w word.Dcl ∷ n 1 ∷ w word.Colon ∷ w (word.Basic basic.Nat) ∷ w word.Semicolon ∷ w word.CloseRound ∷ []) ≡ reaches 6 false false }
    ensures later_dcl { worked Stmt (w word.OpenRound ∷ w word.Skip ∷ w word.Semicolon ∷ w word.Dcl ∷ n 1 ∷ w word.Colon ∷ w (word.Basic basic.Nat) ∷ w word.CloseRound ∷ []) ≡ reaches 3 false false }
    ensures head { worked Stmt (w word.OpenRound ∷ n 1 ∷ w word.CloseRound ∷ w word.OpenRound ∷ num 1 ∷ w word.CloseRound ∷ []) ≡ reaches 6 true false }
    ensures head_member { worked Stmt (w word.OpenRound ∷ n 1 ∷ w word.CloseRound ∷ w word.Dot ∷ n 2 ∷ w word.OpenRound ∷ num 1 ∷ w word.CloseRound ∷ []) ≡ reaches 8 true false }
    ensures sum_in_block { worked Stmt (w word.OpenRound ∷ n 1 ∷ w (word.Operator sign.Plus) ∷ num 1 ∷ w word.Semicolon ∷ w word.Skip ∷ w word.CloseRound ∷ []) ≡ reaches 4 false false }
    ensures no_head { worked Stmt (w word.OpenRound ∷ n 1 ∷ w (word.Operator sign.Plus) ∷ num 1 ∷ w word.CloseRound ∷ w word.Semicolon ∷ []) ≡ reaches 5 false false }
    ensures call_in_blocks { worked Stmt (w word.OpenRound ∷ w word.OpenRound ∷ n 1 ∷ w word.OpenRound ∷ num 1 ∷ w word.CloseRound ∷ w word.CloseRound ∷ w word.CloseRound ∷ []) ≡ reaches 8 true false }
    ensures blocks_as_head { worked Stmt (w word.OpenRound ∷ w word.OpenRound ∷ n 1 ∷ w word.OpenRound ∷ num 1 ∷ w word.CloseRound ∷ w word.CloseRound ∷ w word.CloseRound ∷ w word.OpenRound ∷ num 2 ∷ w word.CloseRound ∷ []) ≡ reaches 11 true false }
    ensures inner_head { worked Stmt (w word.OpenRound ∷ w word.OpenRound ∷ n 1 ∷ w word.OpenRound ∷ num 1 ∷ w word.CloseRound ∷ w word.CloseRound ∷ w word.Semicolon ∷ w word.Skip ∷ w word.CloseRound ∷ []) ≡ reaches 10 true false }
    ensures sum_of_inner { worked Stmt (w word.OpenRound ∷ w word.OpenRound ∷ n 1 ∷ w word.OpenRound ∷ num 1 ∷ w word.CloseRound ∷ w word.CloseRound ∷ w (word.Operator sign.Plus) ∷ num 1 ∷ w word.CloseRound ∷ w word.OpenRound ∷ num 2 ∷ w word.CloseRound ∷ []) ≡ reaches 13 true false }
    ensures assignment_is_no_head { worked Stmt (w word.OpenRound ∷ w word.OpenRound ∷ n 1 ∷ w word.Becomes ∷ num 1 ∷ w word.CloseRound ∷ w word.CloseRound ∷ w word.Dot ∷ n 2 ∷ w word.OpenRound ∷ w word.CloseRound ∷ []) ≡ reaches 7 true false }
    ensures block_then_dot { worked Stmt (w word.OpenRound ∷ w word.Skip ∷ w word.CloseRound ∷ w word.Dot ∷ n 1 ∷ w word.OpenRound ∷ w word.CloseRound ∷ []) ≡ reaches 3 true false }
    ensures if_as_head { worked Stmt (w word.OpenRound ∷ w word.If ∷ n 1 ∷ w word.Then ∷ n 2 ∷ w word.Else ∷ n 3 ∷ w word.CloseRound ∷ w word.Dot ∷ n 4 ∷ w word.OpenRound ∷ w word.CloseRound ∷ []) ≡ reaches 12 true false }
    ensures if_in_block { worked Stmt (w word.OpenRound ∷ w word.If ∷ n 1 ∷ w word.Then ∷ n 2 ∷ w word.OpenRound ∷ w word.CloseRound ∷ w word.Else ∷ n 3 ∷ w word.OpenRound ∷ w word.CloseRound ∷ w word.CloseRound ∷ []) ≡ reaches 12 true false }
    ensures mixed_if { worked Stmt (w word.OpenRound ∷ w word.If ∷ n 1 ∷ w word.Then ∷ w word.Skip ∷ w word.Else ∷ w (word.Operator sign.Minus) ∷ n 2 ∷ []) ≡ reaches 6 false false }
    ensures if_of_values { worked Stmt (w word.OpenRound ∷ w word.If ∷ n 1 ∷ w word.Then ∷ w (word.Operator sign.Minus) ∷ n 2 ∷ w word.Semicolon ∷ w word.Skip ∷ w word.CloseRound ∷ []) ≡ reaches 6 false false }
    ensures let_as_head { worked Stmt (w word.OpenRound ∷ w word.Let ∷ n 1 ∷ w (word.Operator sign.Equal) ∷ num 1 ∷ w word.In ∷ n 1 ∷ w word.CloseRound ∷ w word.Dot ∷ n 2 ∷ w word.OpenRound ∷ w word.CloseRound ∷ []) ≡ reaches 12 true false }
    ensures let_in_block { worked Stmt (w word.OpenRound ∷ w word.Let ∷ n 1 ∷ w (word.Operator sign.Equal) ∷ num 1 ∷ w word.In ∷ n 1 ∷ w word.Becomes ∷ num 2 ∷ w word.CloseRound ∷ []) ≡ reaches 10 true false }
    ensures list_as_head { worked Stmt (w word.OpenRound ∷ w word.OpenSquare ∷ num 1 ∷ w word.CloseSquare ∷ w word.CloseRound ∷ w word.OpenRound ∷ num 2 ∷ w word.CloseRound ∷ []) ≡ reaches 8 true false }
    ensures list_in_block { worked Stmt (w word.OpenRound ∷ w word.OpenSquare ∷ num 1 ∷ w word.CloseSquare ∷ w word.Semicolon ∷ w word.Skip ∷ w word.CloseRound ∷ []) ≡ reaches 4 false false }
    ensures prefix_in_head { worked Stmt (w word.OpenRound ∷ w (word.Operator sign.Minus) ∷ n 1 ∷ w word.CloseRound ∷ w word.OpenRound ∷ num 1 ∷ w word.CloseRound ∷ []) ≡ reaches 7 true false }
    ensures prefix_of_inner { worked Stmt (w word.OpenRound ∷ w word.OpenRound ∷ w (word.Operator sign.Minus) ∷ n 1 ∷ w word.CloseRound ∷ w word.OpenRound ∷ num 1 ∷ w word.CloseRound ∷ w word.Semicolon ∷ w word.Skip ∷ w word.CloseRound ∷ []) ≡ reaches 11 true false }
    ensures cases_as_head { worked Stmt (w word.OpenRound ∷ w word.Cases ∷ n 1 ∷ w word.Colon ∷ num 1 ∷ w word.Arrow ∷ n 2 ∷ w word.End ∷ w word.CloseRound ∷ w word.OpenRound ∷ num 2 ∷ w word.CloseRound ∷ []) ≡ reaches 12 true false }
{}

/// The other statements.
pub fn worked_forms()
    ensures let_values { worked Stmt (w word.Let ∷ n 1 ∷ w word.Colon ∷ w (word.Basic basic.Nat) ∷ w (word.Operator sign.Equal) ∷ num 1 ∷ w word.Comma ∷ w word.MakeTuple ∷ w word.OpenRound ∷ n 2 ∷ w word.Comma ∷ w (word.Operator sign.Minus) ∷ w word.CloseRound ∷ w (word.Operator sign.Equal) ∷ n 3 ∷ w word.OpenRound ∷ n 1 ∷ w word.CloseRound ∷ w word.In ∷ n 1 ∷ w word.Becomes ∷ n 2 ∷ []) ≡ reaches 22 true false }
    ensures let_such { worked Stmt (w word.Let ∷ n 1 ∷ w word.Comma ∷ n 2 ∷ w (word.Operator sign.InSet) ∷ n 3 ∷ w word.Be ∷ w word.St ∷ n 1 ∷ w (word.Operator sign.Less) ∷ n 2 ∷ w word.In ∷ w word.Skip ∷ []) ≡ reaches 13 true false }
    ensures let_two { worked Stmt (w word.Let ∷ n 1 ∷ w word.Comma ∷ n 2 ∷ w (word.Operator sign.Equal) ∷ num 1 ∷ []) ≡ reaches 4 false false }
    ensures let_function { worked Stmt (w word.Let ∷ n 1 ∷ w word.Colon ∷ w (word.Basic basic.Nat) ∷ w word.Arrow ∷ w (word.Basic basic.Nat) ∷ []) ≡ reaches 4 false true }
    ensures let_sequence { worked Stmt (w word.Let ∷ n 1 ∷ w word.In ∷ w word.Seq ∷ n 2 ∷ []) ≡ reaches 3 false true }
    ensures let_typed_bind { worked Stmt (w word.Let ∷ n 1 ∷ w word.Comma ∷ n 2 ∷ w word.Colon ∷ w (word.Basic basic.Nat) ∷ []) ≡ reaches 4 false true }
    ensures let_union { worked Stmt (w word.Let ∷ n 1 ∷ w (word.Operator sign.Union) ∷ n 2 ∷ []) ≡ reaches 2 false true }
    ensures def_value { worked Stmt (w word.Def ∷ n 1 ∷ w (word.Operator sign.Equal) ∷ n 2 ∷ w word.OpenRound ∷ w word.CloseRound ∷ w word.In ∷ w word.Skip ∷ []) ≡ reaches 8 true false }
    ensures def_two { worked Stmt (w word.Def ∷ n 1 ∷ w (word.Operator sign.Equal) ∷ num 1 ∷ w word.Comma ∷ n 2 ∷ w (word.Operator sign.Equal) ∷ num 2 ∷ []) ≡ reaches 4 false true }
    ensures nearest_if { worked Stmt (w word.If ∷ n 1 ∷ w word.Then ∷ w word.If ∷ n 2 ∷ w word.Then ∷ w word.Skip ∷ w word.Else ∷ w word.Skip ∷ w word.Else ∷ w word.Skip ∷ []) ≡ reaches 11 true false }
    ensures else_thrice { worked Stmt (w word.If ∷ n 1 ∷ w word.Then ∷ w word.Skip ∷ w word.Else ∷ w word.Skip ∷ w word.Else ∷ []) ≡ reaches 6 true false }
    ensures elseif { worked Stmt (w word.If ∷ n 1 ∷ w word.Then ∷ w word.Skip ∷ w word.Elseif ∷ n 2 ∷ w word.Then ∷ w word.Skip ∷ []) ≡ reaches 8 true false }
    ensures elseif_inside { worked Stmt (w word.If ∷ n 1 ∷ w word.Then ∷ w word.If ∷ n 2 ∷ w word.Then ∷ w word.Skip ∷ w word.Elseif ∷ n 3 ∷ w word.Then ∷ w word.Skip ∷ w word.Else ∷ w word.Skip ∷ w word.Semicolon ∷ []) ≡ reaches 13 true false }
    ensures value_in_if { worked Stmt (w word.If ∷ w word.True ∷ w word.Then ∷ num 1 ∷ w word.Semicolon ∷ []) ≡ reaches 4 false false }
    ensures if_cut { worked Stmt (w word.If ∷ n 1 ∷ w word.Then ∷ []) ≡ reaches 3 false false }
    ensures cases_of { worked Stmt (w word.Cases ∷ n 1 ∷ w word.Colon ∷ num 1 ∷ w word.Comma ∷ num 2 ∷ w word.Arrow ∷ w word.Skip ∷ w word.Comma ∷ n 2 ∷ w word.Arrow ∷ w word.OpenRound ∷ n 3 ∷ w word.OpenRound ∷ w word.CloseRound ∷ w word.CloseRound ∷ w word.Comma ∷ w word.Others ∷ w word.Arrow ∷ w word.Error ∷ w word.End ∷ []) ≡ reaches 21 true false }
    ensures cases_and_head { worked Stmt (w word.Cases ∷ num 1 ∷ w word.Colon ∷ num 1 ∷ w word.Arrow ∷ w word.Skip ∷ w word.End ∷ w word.OpenRound ∷ num 2 ∷ w word.CloseRound ∷ []) ≡ reaches 7 true false }
    ensures others_last { worked Stmt (w word.Cases ∷ n 1 ∷ w word.Colon ∷ num 1 ∷ w word.Arrow ∷ w word.Skip ∷ w word.Comma ∷ w word.Others ∷ w word.Arrow ∷ w word.Skip ∷ w word.Comma ∷ num 2 ∷ []) ≡ reaches 10 false false }
    ensures while_loop { worked Stmt (w word.While ∷ n 1 ∷ w (word.Operator sign.Less) ∷ num 1 ∷ w word.Do ∷ n 1 ∷ w word.Becomes ∷ num 2 ∷ []) ≡ reaches 8 true false }
    ensures for_numbers { worked Stmt (w word.For ∷ n 1 ∷ w (word.Operator sign.Equal) ∷ num 1 ∷ w word.To ∷ n 2 ∷ w word.By ∷ num 2 ∷ w word.Do ∷ n 3 ∷ w word.OpenRound ∷ n 1 ∷ w word.CloseRound ∷ []) ≡ reaches 13 true false }
    ensures for_no_step { worked Stmt (w word.For ∷ n 1 ∷ w (word.Operator sign.Equal) ∷ num 1 ∷ w word.To ∷ n 2 ∷ w word.Do ∷ w word.Skip ∷ []) ≡ reaches 8 true false }
    ensures for_set { worked Stmt (w word.For ∷ w word.All ∷ w word.MakeTuple ∷ w word.OpenRound ∷ n 1 ∷ w word.Comma ∷ w (word.Operator sign.Minus) ∷ w word.CloseRound ∷ w (word.Operator sign.InSet) ∷ n 2 ∷ w word.Do ∷ w word.Skip ∷ []) ≡ reaches 12 true false }
    ensures for_all_seq { worked Stmt (w word.For ∷ w word.All ∷ n 1 ∷ w word.In ∷ w word.Seq ∷ n 2 ∷ []) ≡ reaches 4 false false }
    ensures for_sequence { worked Stmt (w word.For ∷ n 1 ∷ w word.In ∷ n 2 ∷ w word.OpenRound ∷ n 3 ∷ w word.CloseRound ∷ w word.Do ∷ w word.Skip ∷ []) ≡ reaches 9 true false }
    ensures for_pattern { worked Stmt (w word.For ∷ w word.OpenSquare ∷ n 1 ∷ w word.CloseSquare ∷ w (word.Operator sign.Concatenation) ∷ n 2 ∷ w word.In ∷ n 3 ∷ w word.Do ∷ w word.Skip ∷ []) ≡ reaches 10 true false }
    ensures for_no_end { worked Stmt (w word.For ∷ n 1 ∷ w (word.Operator sign.Equal) ∷ num 1 ∷ w word.Do ∷ []) ≡ reaches 4 false false }
    ensures for_pattern_equals { worked Stmt (w word.For ∷ w word.MakeTuple ∷ w word.OpenRound ∷ n 1 ∷ w word.Comma ∷ n 2 ∷ w word.CloseRound ∷ w (word.Operator sign.Equal) ∷ num 1 ∷ []) ≡ reaches 7 false false }
    ensures trap_exit { worked Stmt (w word.Trap ∷ quoted 1 ∷ w word.With ∷ w word.Skip ∷ w word.In ∷ n 2 ∷ w word.OpenRound ∷ w word.CloseRound ∷ []) ≡ reaches 8 true false }
    ensures trap_in_handler { worked Stmt (w word.Trap ∷ n 1 ∷ w word.With ∷ w word.Trap ∷ n 2 ∷ w word.With ∷ w word.Skip ∷ w word.In ∷ w word.Skip ∷ w word.In ∷ w word.Skip ∷ []) ≡ reaches 11 true false }
    ensures trap_in_body { worked Stmt (w word.Trap ∷ n 1 ∷ w word.With ∷ w word.Skip ∷ w word.In ∷ w word.Trap ∷ n 2 ∷ w word.With ∷ w word.Skip ∷ w word.In ∷ w word.Skip ∷ []) ≡ reaches 11 true false }
    ensures always { worked Stmt (w word.Always ∷ n 1 ∷ w word.Becomes ∷ num 1 ∷ w word.In ∷ w word.OpenRound ∷ n 2 ∷ w word.OpenRound ∷ w word.CloseRound ∷ w word.Semicolon ∷ w word.Skip ∷ w word.CloseRound ∷ []) ≡ reaches 12 true false }
    ensures always_value { worked Stmt (w word.Always ∷ w word.Return ∷ n 1 ∷ w word.In ∷ w word.Skip ∷ []) ≡ reaches 5 true false }
    ensures started { worked Stmt (w word.Start ∷ w word.OpenRound ∷ w word.New ∷ n 1 ∷ w word.OpenRound ∷ w word.CloseRound ∷ w word.CloseRound ∷ []) ≡ reaches 7 true false }
    ensures all_started { worked Stmt (w word.StartList ∷ w word.OpenRound ∷ w word.OpenCurly ∷ n 1 ∷ w word.Comma ∷ n 2 ∷ w word.CloseCurly ∷ w word.CloseRound ∷ []) ≡ reaches 8 true false }
{}

/// Classes, threads and synchronisation.
pub fn worked_classes()
    ensures nothing { worked Spec ([]) ≡ reaches 0 true false }
    ensures one_class { worked Spec (w word.Class ∷ n 1 ∷ w word.End ∷ n 1 ∷ []) ≡ reaches 4 true false }
    ensures other_name { worked Spec (w word.Class ∷ n 1 ∷ w word.End ∷ n 2 ∷ []) ≡ reaches 3 false false }
    ensures no_end { worked Spec (w word.Class ∷ n 1 ∷ []) ≡ reaches 2 false false }
    ensures two_classes { worked Spec (w word.Class ∷ n 1 ∷ w word.End ∷ n 1 ∷ w word.Class ∷ n 2 ∷ w word.Is ∷ w word.Subclass ∷ w word.Of ∷ n 1 ∷ w word.End ∷ n 2 ∷ []) ≡ reaches 12 true false }
    ensures superclasses { worked Spec (w word.Class ∷ n 1 ∷ w word.Is ∷ w word.Subclass ∷ w word.Of ∷ n 2 ∷ w word.Comma ∷ n 3 ∷ w word.End ∷ n 1 ∷ w word.Semicolon ∷ []) ≡ reaches 10 true false }
    ensures blocks { worked Spec (w word.Class ∷ n 1 ∷ w word.Types ∷ w word.Values ∷ w word.Instance ∷ w word.Variables ∷ w word.Functions ∷ w word.Operations ∷ w word.Sync ∷ w word.Thread ∷ w word.Skip ∷ w word.End ∷ n 1 ∷ []) ≡ reaches 13 true false }
    ensures lone_semicolon { worked Spec (w word.Class ∷ n 1 ∷ w word.Values ∷ w word.Semicolon ∷ []) ≡ reaches 3 false false }
    ensures no_thread { worked Spec (w word.Class ∷ n 1 ∷ w word.Thread ∷ w word.Semicolon ∷ []) ≡ reaches 3 false false }
    ensures thread_ends { worked Spec (w word.Class ∷ n 1 ∷ w word.Thread ∷ w word.Skip ∷ w word.Semicolon ∷ w word.End ∷ n 1 ∷ []) ≡ reaches 7 true false }
    ensures statement_outside { worked Spec (w word.Skip ∷ []) ≡ reaches 0 true false }
    ensures expression_thread { worked Spec (w word.Class ∷ n 1 ∷ w word.Thread ∷ w word.Periodic ∷ w word.OpenRound ∷ num 10 ∷ w word.CloseRound ∷ w word.OpenRound ∷ n 2 ∷ w word.CloseRound ∷ w word.Semicolon ∷ w word.Thread ∷ w word.Periodic ∷ w word.OpenRound ∷ num 1 ∷ w word.Comma ∷ num 2 ∷ w word.Comma ∷ num 3 ∷ w word.Comma ∷ num 4 ∷ w word.CloseRound ∷ w word.OpenRound ∷ n 2 ∷ w word.CloseRound ∷ w word.End ∷ n 1 ∷ []) ≡ reaches 27 true false }
    ensures phase_cut { worked Spec (w word.Class ∷ n 1 ∷ w word.Thread ∷ w word.Periodic ∷ w word.OpenRound ∷ num 1 ∷ w word.Comma ∷ num 2 ∷ w word.CloseRound ∷ w word.OpenRound ∷ n 2 ∷ w word.CloseRound ∷ []) ≡ reaches 8 false false }
    ensures thread_left_out { worked Spec (w word.Class ∷ n 1 ∷ w word.Thread ∷ w word.OpenSquare ∷ []) ≡ reaches 3 false true }
    ensures clauses { worked Spec (w word.Class ∷ n 1 ∷ w word.Sync ∷ w word.Per ∷ n 2 ∷ w (word.Operator sign.Implies) ∷ w (word.Counter counter.Finishes) ∷ w word.OpenRound ∷ n 2 ∷ w word.CloseRound ∷ w (word.Operator sign.Equal) ∷ num 1 ∷ w word.Semicolon ∷ w word.Mutex ∷ w word.OpenRound ∷ w word.All ∷ w word.CloseRound ∷ w word.Semicolon ∷ w word.Mutex ∷ w word.OpenRound ∷ n 2 ∷ w word.Comma ∷ n 3 ∷ w word.CloseRound ∷ w word.Semicolon ∷ w word.End ∷ n 1 ∷ []) ≡ reaches 27 true false }
    ensures clause_of_two { worked Spec (w word.Class ∷ n 1 ∷ w word.Sync ∷ w word.Per ∷ n 2 ∷ w word.Comma ∷ n 3 ∷ []) ≡ reaches 5 false false }
    ensures mutex_empty { worked Spec (w word.Class ∷ n 1 ∷ w word.Sync ∷ w word.Mutex ∷ w word.OpenRound ∷ w word.CloseRound ∷ []) ≡ reaches 5 false false }
    ensures class_inside { worked Spec (w word.Class ∷ n 1 ∷ w word.Class ∷ n 2 ∷ []) ≡ reaches 2 false false }
{}

/// Definitions.
pub fn worked_definitions()
    ensures types { worked Spec (w word.Class ∷ n 1 ∷ w word.Types ∷ w word.Public ∷ n 2 ∷ w (word.Operator sign.Equal) ∷ w (word.Basic basic.Nat) ∷ w word.Inv ∷ n 3 ∷ w word.DoubleEqual ∷ n 3 ∷ w (word.Operator sign.Greater) ∷ num 0 ∷ w word.Semicolon ∷ n 4 ∷ w word.DoubleColon ∷ n 5 ∷ w word.Colon ∷ w (word.Basic basic.Nat) ∷ n 6 ∷ w word.Colon ∷ w word.Seq ∷ w word.Of ∷ n 2 ∷ w word.Inv ∷ made 4 ∷ w word.OpenRound ∷ n 7 ∷ w word.Comma ∷ w (word.Operator sign.Minus) ∷ w word.CloseRound ∷ w word.DoubleEqual ∷ n 7 ∷ w (word.Operator sign.Greater) ∷ num 0 ∷ w word.Semicolon ∷ n 8 ∷ w word.DoubleColon ∷ w word.End ∷ n 1 ∷ []) ≡ reaches 40 true false }
    ensures field_without_name { worked Spec (w word.Class ∷ n 1 ∷ w word.Types ∷ n 2 ∷ w word.DoubleColon ∷ w (word.Basic basic.Nat) ∷ []) ≡ reaches 5 false true }
    ensures second_without_name { worked Spec (w word.Class ∷ n 1 ∷ w word.Types ∷ n 2 ∷ w word.DoubleColon ∷ n 3 ∷ w word.Colon ∷ w (word.Basic basic.Nat) ∷ w word.OpenRound ∷ w (word.Basic basic.Nat) ∷ w word.CloseRound ∷ []) ≡ reaches 8 false true }
    ensures function_type { worked Spec (w word.Class ∷ n 1 ∷ w word.Types ∷ n 2 ∷ w (word.Operator sign.Equal) ∷ w (word.Basic basic.Nat) ∷ w word.Arrow ∷ w (word.Basic basic.Nat) ∷ []) ≡ reaches 6 false true }
    ensures values { worked Spec (w word.Class ∷ n 1 ∷ w word.Values ∷ n 2 ∷ w (word.Operator sign.Equal) ∷ num 1 ∷ w word.Semicolon ∷ w word.Private ∷ w word.Static ∷ n 3 ∷ w word.Colon ∷ w (word.Basic basic.Nat) ∷ w (word.Operator sign.Equal) ∷ n 2 ∷ w (word.Operator sign.Plus) ∷ num 1 ∷ w word.Semicolon ∷ w word.End ∷ n 1 ∷ []) ≡ reaches 19 true false }
    ensures two_semicolons { worked Spec (w word.Class ∷ n 1 ∷ w word.Values ∷ n 2 ∷ w (word.Operator sign.Equal) ∷ num 1 ∷ w word.Semicolon ∷ w word.Semicolon ∷ []) ≡ reaches 7 false false }
    ensures no_value { worked Spec (w word.Class ∷ n 1 ∷ w word.Values ∷ n 2 ∷ w word.Colon ∷ w (word.Basic basic.Nat) ∷ w word.Semicolon ∷ []) ≡ reaches 6 false false }
    ensures variables { worked Spec (w word.Class ∷ n 1 ∷ w word.Instance ∷ w word.Variables ∷ n 2 ∷ w word.Colon ∷ w (word.Basic basic.Nat) ∷ w word.Becomes ∷ num 1 ∷ w word.Semicolon ∷ w word.Static ∷ w word.Public ∷ n 3 ∷ w word.Colon ∷ w word.Map ∷ w (word.Basic basic.Nat) ∷ w word.To ∷ w (word.Basic basic.Nat) ∷ w word.Semicolon ∷ w word.Inv ∷ n 2 ∷ w (word.Operator sign.Greater) ∷ num 0 ∷ w word.Semicolon ∷ w word.End ∷ n 1 ∷ []) ≡ reaches 26 true false }
    ensures variable_typeless { worked Spec (w word.Class ∷ n 1 ∷ w word.Instance ∷ w word.Variables ∷ n 2 ∷ w word.Becomes ∷ num 1 ∷ []) ≡ reaches 5 false false }
    ensures static_twice { worked Spec (w word.Class ∷ n 1 ∷ w word.Instance ∷ w word.Variables ∷ w word.Static ∷ w word.Public ∷ w word.Static ∷ n 2 ∷ []) ≡ reaches 6 false false }
    ensures level_twice { worked Spec (w word.Class ∷ n 1 ∷ w word.Instance ∷ w word.Variables ∷ w word.Public ∷ w word.Private ∷ n 2 ∷ []) ≡ reaches 5 false false }
    ensures static_last { worked Spec (w word.Class ∷ n 1 ∷ w word.Values ∷ w word.Public ∷ w word.Static ∷ n 2 ∷ w (word.Operator sign.Equal) ∷ num 1 ∷ w word.End ∷ n 1 ∷ []) ≡ reaches 10 true false }
    ensures function { worked Spec (w word.Class ∷ n 1 ∷ w word.Functions ∷ n 2 ∷ w word.Colon ∷ w (word.Basic basic.Nat) ∷ w (word.Operator sign.Times) ∷ w (word.Basic basic.Nat) ∷ w word.Arrow ∷ w (word.Basic basic.Nat) ∷ n 2 ∷ w word.OpenRound ∷ n 3 ∷ w word.Comma ∷ w word.MakeTuple ∷ w word.OpenRound ∷ n 4 ∷ w word.Comma ∷ w (word.Operator sign.Minus) ∷ w word.CloseRound ∷ w word.CloseRound ∷ w word.DoubleEqual ∷ n 3 ∷ w (word.Operator sign.Plus) ∷ n 4 ∷ w word.Pre ∷ n 3 ∷ w (word.Operator sign.Greater) ∷ num 0 ∷ w word.Post ∷ w word.Result ∷ w (word.Operator sign.Greater) ∷ n 3 ∷ w word.Measure ∷ n 3 ∷ w word.Semicolon ∷ w word.Public ∷ n 5 ∷ w word.Colon ∷ w word.OpenRound ∷ w word.CloseRound ∷ w word.TotalArrow ∷ w (word.Basic basic.Nat) ∷ n 5 ∷ w word.OpenRound ∷ w word.CloseRound ∷ w word.DoubleEqual ∷ n 2 ∷ w word.OpenRound ∷ num 1 ∷ w word.Comma ∷ num 2 ∷ w word.CloseRound ∷ w word.End ∷ n 1 ∷ []) ≡ reaches 55 true false }
    ensures other_function { worked Spec (w word.Class ∷ n 1 ∷ w word.Functions ∷ n 2 ∷ w word.Colon ∷ w (word.Basic basic.Nat) ∷ w word.Arrow ∷ w (word.Basic basic.Nat) ∷ n 3 ∷ w word.OpenRound ∷ n 4 ∷ w word.CloseRound ∷ []) ≡ reaches 8 false false }
    ensures bracketed_type { worked Spec (w word.Class ∷ n 1 ∷ w word.Functions ∷ n 2 ∷ w word.Colon ∷ w word.OpenRound ∷ w word.Map ∷ w (word.Basic basic.Nat) ∷ w word.To ∷ w (word.Basic basic.Nat) ∷ w word.CloseRound ∷ w (word.Operator sign.Times) ∷ w (word.Basic basic.Nat) ∷ w word.Arrow ∷ w (word.Basic basic.Nat) ∷ n 2 ∷ w word.OpenRound ∷ n 3 ∷ w word.Comma ∷ n 4 ∷ w word.CloseRound ∷ w word.DoubleEqual ∷ n 3 ∷ w word.OpenRound ∷ n 4 ∷ w word.CloseRound ∷ w word.End ∷ n 1 ∷ []) ≡ reaches 28 true false }
    ensures nothing_times { worked Spec (w word.Class ∷ n 1 ∷ w word.Functions ∷ n 2 ∷ w word.Colon ∷ w word.OpenRound ∷ w word.CloseRound ∷ w (word.Operator sign.Times) ∷ w (word.Basic basic.Nat) ∷ []) ≡ reaches 7 false false }
    ensures curried { worked Spec (w word.Class ∷ n 1 ∷ w word.Functions ∷ n 2 ∷ w word.Colon ∷ w (word.Basic basic.Nat) ∷ w word.Arrow ∷ w (word.Basic basic.Nat) ∷ n 2 ∷ w word.OpenRound ∷ n 3 ∷ w word.CloseRound ∷ w word.OpenRound ∷ n 4 ∷ w word.CloseRound ∷ []) ≡ reaches 12 false true }
    ensures arrow_again { worked Spec (w word.Class ∷ n 1 ∷ w word.Functions ∷ n 2 ∷ w word.Colon ∷ w (word.Basic basic.Nat) ∷ w word.Arrow ∷ w (word.Basic basic.Nat) ∷ w word.Arrow ∷ w (word.Basic basic.Nat) ∷ []) ≡ reaches 8 false true }
    ensures implicit_post { worked Spec (w word.Class ∷ n 1 ∷ w word.Functions ∷ n 2 ∷ w word.Colon ∷ w (word.Basic basic.Nat) ∷ w word.Arrow ∷ w (word.Basic basic.Nat) ∷ w word.Post ∷ w word.True ∷ []) ≡ reaches 8 false true }
    ensures implicit_pre { worked Spec (w word.Class ∷ n 1 ∷ w word.Operations ∷ n 2 ∷ w word.Colon ∷ w (word.Basic basic.Nat) ∷ w word.DoubleArrow ∷ w (word.Basic basic.Nat) ∷ w word.Pre ∷ w word.True ∷ []) ≡ reaches 8 false true }
    ensures later_name { worked Spec (w word.Class ∷ n 1 ∷ w word.Functions ∷ n 2 ∷ w word.Colon ∷ w (word.Basic basic.Nat) ∷ w word.Arrow ∷ w (word.Basic basic.Nat) ∷ n 2 ∷ w word.OpenRound ∷ n 3 ∷ w word.CloseRound ∷ w word.DoubleEqual ∷ n 3 ∷ w word.Semicolon ∷ n 4 ∷ w word.Colon ∷ w (word.Basic basic.Nat) ∷ w word.Arrow ∷ w (word.Basic basic.Nat) ∷ n 2 ∷ w word.OpenRound ∷ n 3 ∷ w word.CloseRound ∷ []) ≡ reaches 20 false false }
    ensures open_bodies { worked Spec (w word.Class ∷ n 1 ∷ w word.Functions ∷ n 2 ∷ w word.Colon ∷ w (word.Basic basic.Nat) ∷ w word.Arrow ∷ w (word.Basic basic.Nat) ∷ n 2 ∷ w word.OpenRound ∷ n 3 ∷ w word.CloseRound ∷ w word.DoubleEqual ∷ w word.Is ∷ w (word.Operator sign.Not) ∷ w word.Yet ∷ w word.Specified ∷ w word.Semicolon ∷ n 4 ∷ w word.Colon ∷ w word.OpenRound ∷ w word.CloseRound ∷ w word.Arrow ∷ w (word.Basic basic.Nat) ∷ n 4 ∷ w word.OpenRound ∷ w word.CloseRound ∷ w word.DoubleEqual ∷ w word.Is ∷ w word.Subclass ∷ w word.Responsibility ∷ w word.Semicolon ∷ w word.End ∷ n 1 ∷ []) ≡ reaches 34 true false }
    ensures operation { worked Spec (w word.Class ∷ n 1 ∷ w word.Operations ∷ w word.Public ∷ w word.Static ∷ n 2 ∷ w word.Colon ∷ w (word.Basic basic.Nat) ∷ w word.DoubleArrow ∷ w word.OpenRound ∷ w word.CloseRound ∷ n 2 ∷ w word.OpenRound ∷ n 3 ∷ w word.CloseRound ∷ w word.DoubleEqual ∷ w word.OpenRound ∷ n 4 ∷ w word.Becomes ∷ n 3 ∷ w word.Semicolon ∷ w word.Return ∷ w word.CloseRound ∷ w word.Pre ∷ n 3 ∷ w (word.Operator sign.Greater) ∷ num 0 ∷ w word.Post ∷ n 4 ∷ w (word.Operator sign.Equal) ∷ n 3 ∷ w word.Semicolon ∷ n 5 ∷ w word.Colon ∷ w word.OpenRound ∷ w word.CloseRound ∷ w word.DoubleArrow ∷ w (word.Basic basic.Nat) ∷ n 5 ∷ w word.OpenRound ∷ w word.CloseRound ∷ w word.DoubleEqual ∷ w word.Return ∷ num 1 ∷ w word.Semicolon ∷ n 6 ∷ w word.Colon ∷ w word.OpenRound ∷ w word.CloseRound ∷ w word.DoubleArrow ∷ w (word.Basic basic.Nat) ∷ n 6 ∷ w word.OpenRound ∷ w word.CloseRound ∷ w word.DoubleEqual ∷ w word.Is ∷ w (word.Operator sign.Not) ∷ w word.Yet ∷ w word.Specified ∷ w word.End ∷ n 1 ∷ []) ≡ reaches 61 true false }
    ensures arrow_of_operation { worked Spec (w word.Class ∷ n 1 ∷ w word.Operations ∷ n 2 ∷ w word.Colon ∷ w (word.Basic basic.Nat) ∷ w word.Arrow ∷ w (word.Basic basic.Nat) ∷ []) ≡ reaches 6 false true }
    ensures arrow_of_none { worked Spec (w word.Class ∷ n 1 ∷ w word.Operations ∷ n 2 ∷ w word.Colon ∷ w word.OpenRound ∷ w word.CloseRound ∷ w word.Arrow ∷ w word.OpenRound ∷ w word.CloseRound ∷ []) ≡ reaches 7 false false }
    ensures body_left_out { worked Spec (w word.Class ∷ n 1 ∷ w word.Operations ∷ n 2 ∷ w word.Colon ∷ w word.OpenRound ∷ w word.CloseRound ∷ w word.DoubleArrow ∷ w word.OpenRound ∷ w word.CloseRound ∷ n 2 ∷ w word.OpenRound ∷ w word.CloseRound ∷ w word.DoubleEqual ∷ w word.OpenSquare ∷ []) ≡ reaches 14 false true }
    ensures body_of_value { worked Spec (w word.Class ∷ n 1 ∷ w word.Operations ∷ n 2 ∷ w word.Colon ∷ w word.OpenRound ∷ w word.CloseRound ∷ w word.DoubleArrow ∷ w word.OpenRound ∷ w word.CloseRound ∷ n 2 ∷ w word.OpenRound ∷ w word.CloseRound ∷ w word.DoubleEqual ∷ w (word.Operator sign.Minus) ∷ num 1 ∷ []) ≡ reaches 14 false false }
    ensures measure_of_operation { worked Spec (w word.Class ∷ n 1 ∷ w word.Operations ∷ n 2 ∷ w word.Colon ∷ w word.OpenRound ∷ w word.CloseRound ∷ w word.DoubleArrow ∷ w word.OpenRound ∷ w word.CloseRound ∷ n 2 ∷ w word.OpenRound ∷ w word.CloseRound ∷ w word.DoubleEqual ∷ w word.Skip ∷ w word.Measure ∷ num 1 ∷ []) ≡ reaches 15 false false }
    ensures other_definition { worked Spec (w word.Class ∷ n 1 ∷ w word.Operations ∷ n 2 ∷ w word.Colon ∷ w word.OpenRound ∷ w word.CloseRound ∷ w word.DoubleArrow ∷ w word.OpenRound ∷ w word.CloseRound ∷ n 2 ∷ w word.OpenRound ∷ w word.CloseRound ∷ w word.DoubleEqual ∷ w word.Skip ∷ w word.End ∷ n 3 ∷ []) ≡ reaches 16 false false }
{}

/// Whole specifications, and one that is cut.
pub fn worked_specifications()
    ensures counting { worked Spec counting ≡ reaches 59 true false }
    ensures buffer { worked Spec buffer ≡ reaches 296 true false }
    ensures adders { worked Spec adders ≡ reaches 154 true false }
    ensures endless_call { worked Spec endless_call ≡ reaches 27 true false }
    ensures gate { worked Spec gate ≡ reaches 117 true false }
    ensures faulty_guard { worked Spec faulty_guard ≡ reaches 29 true false }
    ensures threads { worked Spec threads ≡ reaches 71 true false }
    ensures pair { worked Spec pair ≡ reaches 75 true false }
    ensures handlers { worked Spec handlers ≡ reaches 127 true false }
    ensures clock { worked Spec clock ≡ reaches 92 true false }
    ensures diamond { worked Spec diamond ≡ reaches 92 true false }
    ensures library { worked Spec library ≡ reaches 550 true false }
    ensures hosts { worked Spec hosts ≡ reaches 39 true false }
    ensures contracts { worked Spec contracts ≡ reaches 72 true false }
    ensures counting_cut { worked Spec (take 40 counting) ≡ reaches 40 false false }
{}

/// Tokens in which nodes are too many or too deep.
pub fn worked_depths()
    ensures blocks { worked Stmt ((repeated 199 (w word.OpenRound ∷ [])) ++ (w word.Skip ∷ []) ++ (repeated 199 (w word.CloseRound ∷ []))) ≡ reaches 399 true false }
    ensures blocks_too_many { worked Stmt ((repeated 200 (w word.OpenRound ∷ [])) ++ (w word.Skip ∷ []) ++ (repeated 200 (w word.CloseRound ∷ []))) ≡ too_deep_at 201 }
    ensures call_in_blocks { worked Stmt ((repeated 197 (w word.OpenRound ∷ [])) ++ (n 1 ∷ w word.OpenRound ∷ w word.CloseRound ∷ []) ++ (repeated 197 (w word.CloseRound ∷ []))) ≡ reaches 397 true false }
    ensures call_too_deep { worked Stmt ((repeated 198 (w word.OpenRound ∷ [])) ++ (n 1 ∷ w word.OpenRound ∷ w word.CloseRound ∷ []) ++ (repeated 198 (w word.CloseRound ∷ []))) ≡ too_deep_at 399 }
    ensures applications { worked Stmt ((n 1 ∷ []) ++ (repeated 198 (w word.OpenRound ∷ num 1 ∷ w word.CloseRound ∷ []))) ≡ reaches 595 true false }
    ensures call_of_applications { worked Stmt ((n 1 ∷ []) ++ (repeated 199 (w word.OpenRound ∷ num 1 ∷ w word.CloseRound ∷ []))) ≡ too_deep_at 598 }
    ensures applications_too_deep { worked Stmt ((n 1 ∷ []) ++ (repeated 205 (w word.OpenRound ∷ num 1 ∷ w word.CloseRound ∷ []))) ≡ too_deep_at 601 }
    ensures steps_are_no_nodes { worked Stmt ((n 1 ∷ []) ++ (repeated 205 (w word.OpenRound ∷ num 1 ∷ w word.CloseRound ∷ [])) ++ (w word.Becomes ∷ num 1 ∷ [])) ≡ reaches 618 true false }
    ensures ifs { worked Stmt ((repeated 199 (w word.If ∷ w word.True ∷ w word.Then ∷ [])) ++ (w word.Skip ∷ [])) ≡ reaches 598 true false }
    ensures ifs_too_many { worked Stmt ((repeated 200 (w word.If ∷ w word.True ∷ w word.Then ∷ [])) ++ (w word.Skip ∷ [])) ≡ too_deep_at 599 }
    ensures whiles_too_many { worked Stmt ((repeated 200 (w word.While ∷ w word.True ∷ w word.Do ∷ [])) ++ (w word.Skip ∷ [])) ≡ too_deep_at 599 }
    ensures traps { worked Stmt ((repeated 199 (w word.Trap ∷ n 1 ∷ w word.With ∷ w word.Skip ∷ w word.In ∷ [])) ++ (w word.Skip ∷ [])) ≡ reaches 996 true false }
    ensures traps_too_many { worked Stmt ((repeated 200 (w word.Trap ∷ n 1 ∷ w word.With ∷ w word.Skip ∷ w word.In ∷ [])) ++ (w word.Skip ∷ [])) ≡ too_deep_at 997 }
    ensures expression_inside { worked Stmt ((repeated 150 (w word.OpenRound ∷ [])) ++ (w word.Return ∷ []) ++ (repeated 48 (w word.OpenRound ∷ [])) ++ (num 1 ∷ []) ++ (repeated 48 (w word.CloseRound ∷ [])) ++ (repeated 150 (w word.CloseRound ∷ []))) ≡ reaches 398 true false }
    ensures expression_too_deep { worked Stmt ((repeated 150 (w word.OpenRound ∷ [])) ++ (w word.Return ∷ []) ++ (repeated 49 (w word.OpenRound ∷ [])) ++ (num 1 ∷ [])) ≡ too_deep_at 201 }
    ensures from_nothing_in_a_class { worked Spec ((w word.Class ∷ n 1 ∷ w word.Operations ∷ n 2 ∷ w word.Colon ∷ w word.OpenRound ∷ w word.CloseRound ∷ w word.DoubleArrow ∷ w word.OpenRound ∷ w word.CloseRound ∷ n 2 ∷ w word.OpenRound ∷ w word.CloseRound ∷ w word.DoubleEqual ∷ []) ++ (repeated 199 (w word.OpenRound ∷ [])) ++ (w word.Skip ∷ []) ++ (repeated 199 (w word.CloseRound ∷ [])) ++ (w word.End ∷ n 1 ∷ [])) ≡ reaches 415 true false }
    ensures too_deep_in_a_class { worked Spec ((w word.Class ∷ n 1 ∷ w word.Operations ∷ n 2 ∷ w word.Colon ∷ w word.OpenRound ∷ w word.CloseRound ∷ w word.DoubleArrow ∷ w word.OpenRound ∷ w word.CloseRound ∷ n 2 ∷ w word.OpenRound ∷ w word.CloseRound ∷ w word.DoubleEqual ∷ []) ++ (repeated 200 (w word.OpenRound ∷ [])) ++ (w word.Skip ∷ [])) ≡ too_deep_at 215 }
{}
