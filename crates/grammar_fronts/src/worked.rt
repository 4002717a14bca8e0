// Words and what is found of them. Each is the contract of a function that does nothing.

ghost use Rattle.std.specs.Prelude.{◌≡◌, true, false, [], ◌∷◌, ◌++◌};
ghost use Rattle.vdm_kinds.specs.declared.basic_type.BasicType.TheVariants as basic;
ghost use Rattle.vdm_kinds.specs.declared.counter.Counter.TheVariants as counter;
ghost use Rattle.vdm_kinds.specs.declared.sign.Sign.TheVariants as sign;
ghost use Rattle.grammar_words.specs.declared.word.Word.TheVariants as word;
ghost use Rattle.grammar_fronts.specs.declared.kind.Kind.TheVariants.{TypeExpr, Pattern, Expr};
ghost use Rattle.grammar_fronts.specs.WorkedFronts.{worked, reaches, too_deep_at, repeated, chain};

/// Expressions, how many of their words are a front, whether it is whole, and whether the next word is of a form that is left out.
pub fn worked_expressions()
    ensures nothing { worked Expr [] ≡ reaches 0 false false }
    ensures sum { worked Expr (word.Whole ∷ word.Operator sign.Plus ∷ word.Whole ∷ word.Then ∷ []) ≡ reaches 3 true false }
    ensures sum_cut { worked Expr (word.Whole ∷ word.Operator sign.Plus ∷ []) ≡ reaches 2 false false }
    ensures prefixes { worked Expr (word.Operator sign.Minus ∷ word.Operator sign.Not ∷ word.Operator sign.Card ∷ word.Identifier ∷ []) ≡ reaches 4 true false }
    ensures prefix_cut { worked Expr (word.Whole ∷ word.Operator sign.Exponent ∷ word.Operator sign.Minus ∷ []) ≡ reaches 3 false false }
    ensures prefix_inside { worked Expr (word.Whole ∷ word.Operator sign.Exponent ∷ word.Operator sign.Minus ∷ word.Whole ∷ []) ≡ reaches 4 true false }
    ensures no_prefix { worked Expr (word.Operator sign.Times ∷ word.Whole ∷ []) ≡ reaches 0 false false }
    ensures member { worked Expr (word.Whole ∷ word.Operator sign.InSet ∷ word.Identifier ∷ []) ≡ reaches 3 true false }
    ensures no_member { worked Expr (word.Whole ∷ word.Operator sign.NotInSet ∷ word.Identifier ∷ []) ≡ reaches 3 true false }
    ensures other_in { worked Expr (word.Whole ∷ word.In ∷ []) ≡ reaches 1 true false }
    ensures quote_behind_operand { worked Expr (word.Whole ∷ word.Quote ∷ word.Whole ∷ []) ≡ reaches 1 true false }
    ensures names { worked Expr (word.Identifier ∷ word.Backquote ∷ word.Identifier ∷ word.Tilde ∷ []) ≡ reaches 3 true false }
    ensures old_name { worked Expr (word.Identifier ∷ word.Tilde ∷ []) ≡ reaches 2 true false }
    ensures postfixes { worked Expr (word.Identifier ∷ word.Dot ∷ word.Identifier ∷ word.Dot ∷ word.Identifier ∷ word.DotNumber ∷ word.Whole ∷ word.DotNumber ∷ word.Whole ∷ []) ≡ reaches 9 true false }
    ensures qualified_member { worked Expr (word.Identifier ∷ word.Dot ∷ word.Identifier ∷ word.Backquote ∷ word.Identifier ∷ word.Dot ∷ []) ≡ reaches 6 false false }
    ensures applications { worked Expr (word.Identifier ∷ word.OpenRound ∷ word.Whole ∷ word.CloseRound ∷ word.OpenRound ∷ word.Whole ∷ word.Comma ∷ word.Whole ∷ word.CloseRound ∷ []) ≡ reaches 9 true false }
    ensures no_arguments { worked Expr (word.Identifier ∷ word.OpenRound ∷ word.CloseRound ∷ []) ≡ reaches 3 true false }
    ensures subsequence { worked Expr (word.Identifier ∷ word.OpenRound ∷ word.Whole ∷ word.Comma ∷ word.Dots ∷ word.Comma ∷ word.Whole ∷ word.CloseRound ∷ []) ≡ reaches 8 true false }
    ensures dots_too_late { worked Expr (word.Identifier ∷ word.OpenRound ∷ word.Whole ∷ word.Comma ∷ word.Whole ∷ word.Comma ∷ word.Dots ∷ []) ≡ reaches 6 false false }
    ensures bracket_cut { worked Expr (word.OpenRound ∷ word.Whole ∷ []) ≡ reaches 2 false false }
    ensures application_cut { worked Expr (word.Identifier ∷ word.OpenRound ∷ word.Whole ∷ []) ≡ reaches 3 false false }
    ensures set_range { worked Expr (word.OpenCurly ∷ word.Identifier ∷ word.Comma ∷ word.Dots ∷ word.Comma ∷ word.Identifier ∷ word.CloseCurly ∷ []) ≡ reaches 7 true false }
    ensures set_cut { worked Expr (word.OpenCurly ∷ word.Whole ∷ word.Comma ∷ word.Whole ∷ []) ≡ reaches 4 false false }
    ensures comprehension { worked Expr (word.OpenCurly ∷ word.Identifier ∷ word.Bar ∷ word.Identifier ∷ word.Operator sign.InSet ∷ word.Identifier ∷ word.Ampersand ∷ word.True ∷ word.CloseCurly ∷ []) ≡ reaches 9 true false }
    ensures two_binds { worked Expr (word.OpenCurly ∷ word.Identifier ∷ word.Bar ∷ word.Identifier ∷ word.Comma ∷ word.Identifier ∷ word.Operator sign.InSet ∷ word.Identifier ∷ word.Comma ∷ word.Identifier ∷ word.Operator sign.InSet ∷ word.Identifier ∷ word.CloseCurly ∷ []) ≡ reaches 13 true false }
    ensures bind_without_set { worked Expr (word.OpenCurly ∷ word.Identifier ∷ word.Bar ∷ word.Identifier ∷ word.In ∷ word.Identifier ∷ word.CloseCurly ∷ []) ≡ reaches 5 false false }
    ensures sequence_bind { worked Expr (word.OpenSquare ∷ word.Identifier ∷ word.Bar ∷ word.Identifier ∷ word.In ∷ word.Seq ∷ []) ≡ reaches 5 false true }
    ensures type_bind { worked Expr (word.OpenCurly ∷ word.Identifier ∷ word.Bar ∷ word.Identifier ∷ word.Colon ∷ []) ≡ reaches 4 false true }
    ensures type_bind_of_sequence { worked Expr (word.OpenSquare ∷ word.Identifier ∷ word.Bar ∷ word.Identifier ∷ word.Colon ∷ []) ≡ reaches 4 false true }
    ensures one_bind_of_sequence { worked Expr (word.OpenSquare ∷ word.Identifier ∷ word.Bar ∷ word.Identifier ∷ word.Comma ∷ []) ≡ reaches 4 false false }
    ensures empty_map { worked Expr (word.OpenCurly ∷ word.MapsTo ∷ word.CloseCurly ∷ []) ≡ reaches 3 true false }
    ensures map { worked Expr (word.OpenCurly ∷ word.Whole ∷ word.MapsTo ∷ word.Whole ∷ word.Comma ∷ word.Whole ∷ word.MapsTo ∷ word.Whole ∷ word.CloseCurly ∷ []) ≡ reaches 9 true false }
    ensures map_cut { worked Expr (word.OpenCurly ∷ word.Whole ∷ word.MapsTo ∷ word.Whole ∷ []) ≡ reaches 4 false false }
    ensures map_comprehension { worked Expr (word.OpenCurly ∷ word.Identifier ∷ word.MapsTo ∷ word.Whole ∷ word.Bar ∷ word.Identifier ∷ word.Operator sign.InSet ∷ word.Identifier ∷ word.CloseCurly ∷ []) ≡ reaches 9 true false }
    ensures sequence { worked Expr (word.OpenSquare ∷ word.Whole ∷ word.Comma ∷ word.Whole ∷ word.CloseSquare ∷ []) ≡ reaches 5 true false }
    ensures sequence_cut { worked Expr (word.OpenSquare ∷ word.Whole ∷ []) ≡ reaches 2 false false }
    ensures tuple { worked Expr (word.MakeTuple ∷ word.OpenRound ∷ word.Whole ∷ word.Comma ∷ word.Whole ∷ word.CloseRound ∷ []) ≡ reaches 6 true false }
    ensures tuple_of_one { worked Expr (word.MakeTuple ∷ word.OpenRound ∷ word.Whole ∷ word.CloseRound ∷ []) ≡ reaches 3 false false }
    ensures record_of_class { worked Expr (word.MakeNamed ∷ word.Backquote ∷ word.Identifier ∷ word.OpenRound ∷ word.CloseRound ∷ []) ≡ reaches 5 true false }
    ensures changes { worked Expr (word.Modify ∷ word.OpenRound ∷ word.Identifier ∷ word.Comma ∷ word.Identifier ∷ word.MapsTo ∷ word.Whole ∷ word.Comma ∷ word.Identifier ∷ word.MapsTo ∷ word.Whole ∷ word.CloseRound ∷ []) ≡ reaches 12 true false }
    ensures of_type { worked Expr (word.IsType ∷ word.OpenRound ∷ word.Whole ∷ word.Comma ∷ word.Basic basic.Nat ∷ word.Bar ∷ word.Basic basic.Bool ∷ word.CloseRound ∷ []) ≡ reaches 8 true false }
    ensures function_type { worked Expr (word.IsType ∷ word.OpenRound ∷ word.Whole ∷ word.Comma ∷ word.Basic basic.Nat ∷ word.Arrow ∷ []) ≡ reaches 5 false true }
    ensures of_class { worked Expr (word.IsOfClass ∷ word.OpenRound ∷ word.Identifier ∷ word.Comma ∷ word.Identifier ∷ word.CloseRound ∷ []) ≡ reaches 6 true false }
    ensures object { worked Expr (word.New ∷ word.Identifier ∷ word.OpenRound ∷ word.Whole ∷ word.CloseRound ∷ []) ≡ reaches 5 true false }
    ensures counter { worked Expr (word.Counter counter.Finishes ∷ word.OpenRound ∷ word.Identifier ∷ word.Comma ∷ word.Identifier ∷ word.CloseRound ∷ []) ≡ reaches 6 true false }
    ensures counter_of_nothing { worked Expr (word.Counter counter.Requests ∷ word.Identifier ∷ word.OpenRound ∷ []) ≡ reaches 1 false false }
    ensures let_be { worked Expr (word.Let ∷ word.Identifier ∷ word.Operator sign.InSet ∷ word.Identifier ∷ word.Be ∷ word.St ∷ word.Identifier ∷ word.In ∷ word.Identifier ∷ []) ≡ reaches 9 true false }
    ensures bind_cut { worked Expr (word.Let ∷ word.Identifier ∷ word.Operator sign.InSet ∷ []) ≡ reaches 3 false false }
    ensures let_of_sequence { worked Expr (word.Let ∷ word.Identifier ∷ word.In ∷ word.Seq ∷ []) ≡ reaches 3 false true }
    ensures locals { worked Expr (word.Let ∷ word.Identifier ∷ word.Operator sign.Equal ∷ word.Whole ∷ word.Comma ∷ word.Identifier ∷ word.Colon ∷ word.Basic basic.Nat ∷ word.Operator sign.Equal ∷ word.Whole ∷ word.In ∷ word.Identifier ∷ word.Comma ∷ []) ≡ reaches 12 true false }
    ensures local_function_type { worked Expr (word.Let ∷ word.Identifier ∷ word.Colon ∷ word.Basic basic.Nat ∷ word.TotalArrow ∷ []) ≡ reaches 4 false true }
    ensures bound_pair_with_type { worked Expr (word.Let ∷ word.Identifier ∷ word.Comma ∷ word.Identifier ∷ word.Colon ∷ []) ≡ reaches 4 false true }
    ensures local_function { worked Expr (word.Let ∷ word.Identifier ∷ word.OpenRound ∷ []) ≡ reaches 2 false false }
    ensures definition { worked Expr (word.Def ∷ word.Identifier ∷ word.Operator sign.Equal ∷ word.Whole ∷ word.In ∷ word.Identifier ∷ []) ≡ reaches 6 true false }
    ensures two_definitions { worked Expr (word.Def ∷ word.Identifier ∷ word.Operator sign.Equal ∷ word.Whole ∷ word.Comma ∷ []) ≡ reaches 4 false true }
    ensures choice { worked Expr (word.If ∷ word.True ∷ word.Then ∷ word.Whole ∷ word.Else ∷ word.Whole ∷ word.Else ∷ []) ≡ reaches 6 true false }
    ensures choices { worked Expr (word.If ∷ word.True ∷ word.Then ∷ word.Whole ∷ word.Elseif ∷ word.True ∷ word.Then ∷ word.Whole ∷ word.Else ∷ word.Whole ∷ []) ≡ reaches 10 true false }
    ensures choice_without_else { worked Expr (word.If ∷ word.True ∷ word.Then ∷ word.Whole ∷ []) ≡ reaches 4 false false }
    ensures nested_choice { worked Expr (word.If ∷ word.True ∷ word.Then ∷ word.If ∷ word.True ∷ word.Then ∷ word.Whole ∷ word.Else ∷ word.Whole ∷ word.Else ∷ word.Whole ∷ []) ≡ reaches 11 true false }
    ensures alternatives { worked Expr (word.Cases ∷ word.Whole ∷ word.Colon ∷ word.Whole ∷ word.Comma ∷ word.Whole ∷ word.Arrow ∷ word.Whole ∷ word.Comma ∷ word.Others ∷ word.Arrow ∷ word.Whole ∷ word.End ∷ word.Operator sign.Plus ∷ word.Whole ∷ []) ≡ reaches 15 true false }
    ensures alternatives_cut { worked Expr (word.Cases ∷ word.Whole ∷ word.Colon ∷ word.Whole ∷ word.Arrow ∷ word.Whole ∷ []) ≡ reaches 6 false false }
    ensures no_token_pattern { worked Expr (word.Cases ∷ word.Whole ∷ word.Colon ∷ word.MakeToken ∷ []) ≡ reaches 3 false false }
    ensures quantified { worked Expr (word.Forall ∷ word.Identifier ∷ word.Operator sign.InSet ∷ word.Identifier ∷ word.Comma ∷ word.Identifier ∷ word.Operator sign.InSet ∷ word.Identifier ∷ word.Ampersand ∷ word.True ∷ word.Operator sign.And ∷ word.True ∷ []) ≡ reaches 12 true false }
    ensures type_quantified { worked Expr (word.Exists ∷ word.Identifier ∷ word.Colon ∷ []) ≡ reaches 2 false true }
    ensures two_names_of_one { worked Expr (word.ExistsOne ∷ word.Identifier ∷ word.Comma ∷ word.Identifier ∷ word.Operator sign.InSet ∷ word.Identifier ∷ word.Ampersand ∷ word.True ∷ []) ≡ reaches 8 true false }
    ensures only_name { worked Expr (word.Iota ∷ word.Identifier ∷ word.Comma ∷ []) ≡ reaches 2 false false }
    ensures left_out_type { worked Expr (word.Iota ∷ word.Identifier ∷ word.Colon ∷ []) ≡ reaches 2 false true }
{}

/// Patterns.
pub fn worked_patterns()
    ensures nothing { worked Pattern [] ≡ reaches 0 false false }
    ensures any { worked Pattern (word.Operator sign.Minus ∷ []) ≡ reaches 1 true false }
    ensures joined { worked Pattern (word.Identifier ∷ word.Operator sign.Concatenation ∷ word.OpenSquare ∷ word.Whole ∷ word.CloseSquare ∷ word.Operator sign.Concatenation ∷ word.Identifier ∷ []) ≡ reaches 7 true false }
    ensures value { worked Pattern (word.OpenRound ∷ word.Whole ∷ word.Operator sign.Plus ∷ word.Whole ∷ word.CloseRound ∷ []) ≡ reaches 5 true false }
    ensures set { worked Pattern (word.OpenCurly ∷ word.Identifier ∷ word.Comma ∷ word.Operator sign.Minus ∷ word.CloseCurly ∷ []) ≡ reaches 5 true false }
    ensures map { worked Pattern (word.OpenCurly ∷ word.Identifier ∷ word.MapsTo ∷ word.Whole ∷ word.Comma ∷ word.Identifier ∷ word.MapsTo ∷ word.Identifier ∷ word.CloseCurly ∷ []) ≡ reaches 9 true false }
    ensures empty_map { worked Pattern (word.OpenCurly ∷ word.MapsTo ∷ word.CloseCurly ∷ []) ≡ reaches 3 true false }
    ensures map_of_set { worked Pattern (word.OpenCurly ∷ word.Identifier ∷ word.Comma ∷ word.Identifier ∷ word.MapsTo ∷ []) ≡ reaches 4 false false }
    ensures tuple { worked Pattern (word.MakeTuple ∷ word.OpenRound ∷ word.Identifier ∷ word.Comma ∷ word.Operator sign.Minus ∷ word.CloseRound ∷ []) ≡ reaches 6 true false }
    ensures record_of_class { worked Pattern (word.MakeNamed ∷ word.OpenRound ∷ word.CloseRound ∷ []) ≡ reaches 3 true false }
    ensures union { worked Pattern (word.Identifier ∷ word.Operator sign.Union ∷ []) ≡ reaches 1 true true }
    ensures map_union { worked Pattern (word.OpenCurly ∷ word.Identifier ∷ word.Operator sign.MapUnion ∷ []) ≡ reaches 2 false true }
    ensures no_sum { worked Pattern (word.Identifier ∷ word.Operator sign.Plus ∷ word.Identifier ∷ []) ≡ reaches 1 true false }
{}

/// Types.
pub fn worked_types()
    ensures nothing { worked TypeExpr [] ≡ reaches 0 false false }
    ensures basic { worked TypeExpr (word.Basic basic.Nat ∷ []) ≡ reaches 1 true false }
    ensures union { worked TypeExpr (word.Map ∷ word.Basic basic.Nat ∷ word.To ∷ word.Set ∷ word.Of ∷ word.Basic basic.Nat ∷ word.Operator sign.Times ∷ word.Basic basic.Nat ∷ word.Bar ∷ word.OpenSquare ∷ word.Identifier ∷ word.Backquote ∷ word.Identifier ∷ word.CloseSquare ∷ []) ≡ reaches 14 true false }
    ensures function { worked TypeExpr (word.Basic basic.Nat ∷ word.Arrow ∷ []) ≡ reaches 1 true true }
    ensures function_inside { worked TypeExpr (word.OpenSquare ∷ word.Basic basic.Nat ∷ word.TotalArrow ∷ []) ≡ reaches 2 false true }
    ensures function_of_nothing { worked TypeExpr (word.OpenRound ∷ word.CloseRound ∷ []) ≡ reaches 1 false false }
    ensures cut { worked TypeExpr (word.Seq1 ∷ word.Of ∷ []) ≡ reaches 2 false false }
    ensures map_cut { worked TypeExpr (word.InMap ∷ word.Basic basic.Nat ∷ []) ≡ reaches 2 false false }
    ensures quote { worked TypeExpr (word.Quote ∷ word.Bar ∷ word.Quote ∷ []) ≡ reaches 3 true false }
{}

/// 200 nodes may be open round a word, and a node may be of depth 200; a chain of one operator that adds parts is one node.
pub fn worked_depths()
    ensures brackets { worked Expr (repeated 199 (word.OpenRound ∷ []) ++ word.Whole ∷ repeated 199 (word.CloseRound ∷ [])) ≡ reaches 399 true false }
    ensures brackets_too_deep { worked Expr (repeated 200 (word.OpenRound ∷ []) ++ word.Whole ∷ []) ≡ too_deep_at 201 }
    ensures brackets_cut { worked Expr (repeated 200 (word.OpenRound ∷ []) ++ word.CloseRound ∷ []) ≡ reaches 200 false false }
    ensures sum { worked Expr (chain sign.Plus 199) ≡ reaches 399 true false }
    ensures sum_too_deep { worked Expr (chain sign.Plus 200) ≡ too_deep_at 401 }
    ensures longer_sum_too_deep { worked Expr (chain sign.Plus 204) ≡ too_deep_at 401 }
    ensures sum_ends_in_product { worked Expr (chain sign.Plus 200 ++ word.Operator sign.Times ∷ word.Whole ∷ []) ≡ too_deep_at 403 }
    ensures sum_in_bracket { worked Expr (word.OpenRound ∷ chain sign.Plus 199) ≡ reaches 400 false false }
    ensures sum_in_bracket_too_deep { worked Expr (word.OpenRound ∷ chain sign.Plus 199 ++ word.CloseRound ∷ []) ≡ too_deep_at 401 }
    ensures sum_of_brackets { worked Expr (repeated 199 (word.OpenRound ∷ []) ++ word.Whole ∷ repeated 199 (word.CloseRound ∷ []) ++ word.Operator sign.Plus ∷ word.Whole ∷ []) ≡ too_deep_at 401 }
    ensures implications { worked Expr (chain sign.Implies 199) ≡ reaches 399 true false }
    ensures implications_too_deep { worked Expr (chain sign.Implies 200) ≡ too_deep_at 401 }
    ensures longer_implications_too_deep { worked Expr (chain sign.Implies 204) ≡ too_deep_at 401 }
    ensures powers_too_deep { worked Expr (chain sign.Exponent 200) ≡ too_deep_at 401 }
    ensures negations { worked Expr (repeated 199 (word.Operator sign.Not ∷ []) ++ word.True ∷ []) ≡ reaches 200 true false }
    ensures negations_too_deep { worked Expr (repeated 200 (word.Operator sign.Not ∷ []) ++ word.True ∷ []) ≡ too_deep_at 201 }
    ensures choices_too_deep { worked Expr (repeated 200 (word.If ∷ word.True ∷ word.Then ∷ []) ++ word.Whole ∷ []) ≡ too_deep_at 599 }
    ensures sets_too_deep { worked Expr (repeated 200 (word.OpenCurly ∷ []) ++ word.CloseCurly ∷ []) ≡ reaches 201 false false }
    ensures more_sets_too_deep { worked Expr (repeated 201 (word.OpenCurly ∷ [])) ≡ too_deep_at 201 }
    ensures calls { worked Expr (word.Identifier ∷ repeated 199 (word.OpenRound ∷ word.Whole ∷ word.CloseRound ∷ [])) ≡ reaches 598 true false }
    ensures calls_too_deep { worked Expr (word.Identifier ∷ repeated 200 (word.OpenRound ∷ word.Whole ∷ word.CloseRound ∷ [])) ≡ too_deep_at 601 }
    ensures members_too_deep { worked Expr (word.Identifier ∷ repeated 200 (word.Dot ∷ word.Identifier ∷ [])) ≡ too_deep_at 401 }
    ensures patterns_too_deep { worked Expr (word.Let ∷ repeated 199 (word.OpenSquare ∷ []) ++ word.Identifier ∷ []) ≡ too_deep_at 201 }
    ensures types_too_deep { worked Expr (word.IsType ∷ word.OpenRound ∷ word.Whole ∷ word.Comma ∷ repeated 199 (word.Set ∷ word.Of ∷ []) ++ word.Basic basic.Nat ∷ []) ≡ too_deep_at 403 }
    ensures alternatives { worked TypeExpr (word.Basic basic.Nat ∷ repeated 300 (word.Bar ∷ word.Basic basic.Nat ∷ [])) ≡ reaches 601 true false }
    ensures factors { worked TypeExpr (word.Basic basic.Nat ∷ repeated 300 (word.Operator sign.Times ∷ word.Basic basic.Nat ∷ [])) ≡ reaches 601 true false }
    ensures parts { worked Pattern (word.Identifier ∷ repeated 300 (word.Operator sign.Concatenation ∷ word.Identifier ∷ [])) ≡ reaches 601 true false }
    ensures alternatives_of_factors { worked TypeExpr (repeated 197 (word.OpenSquare ∷ []) ++ word.Identifier ∷ word.Operator sign.Times ∷ word.Identifier ∷ word.Bar ∷ word.Identifier ∷ repeated 197 (word.CloseSquare ∷ [])) ≡ reaches 399 true false }
    ensures alternatives_of_factors_too_deep { worked TypeExpr (repeated 198 (word.OpenSquare ∷ []) ++ word.Identifier ∷ word.Operator sign.Times ∷ word.Identifier ∷ word.Bar ∷ word.Identifier ∷ repeated 198 (word.CloseSquare ∷ [])) ≡ too_deep_at 401 }
{}
