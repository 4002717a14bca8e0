// Expressions worked out, with the names by their numbers.

ghost use Rattle.std.specs.Prelude.{◌≡◌, [], ◌∷◌, Some, None, pos};
ghost use Rattle.vdm_kinds.specs.declared.basic_type.BasicType.TheVariants.{Bool, Nat};
ghost use Rattle.vdm_kinds.specs.declared.counter.Counter.TheVariants.{Finishes};
ghost use Rattle.vdm_kinds.specs.declared.sign.Sign.TheVariants.{Plus, Equal, Head, Tail, Card, Greater, Union};
ghost use Rattle.vdm_kinds.specs.declared.spec_kind.SpecKind.TheVariants.{UnknownName, NotVisible, WrongArity, NoCommonValue, GuardReach, InitReach};
ghost use Rattle.abstract_syntax.specs.Literals.{whole_literal};
ghost use Rattle.abstract_syntax.specs.Types.{basic_type, seq_type};
ghost use Rattle.abstract_syntax.specs.Expressions.{bracketed, qualified, undefined, self_object, current_time, history, select_part, let_in, one_defined, no_defined, tuple_pattern, literal_pattern, set_comprehension, one_bind, no_binds, left_out, cases_of, one_case, no_cases, if_else, no_branches, iota_of, for_all, map_enumeration, one_maplet, no_maplets};
ghost use Rattle.class_meaning.specs.Worked.{name, a, v, f, only, has_v, has_f};
ghost use Rattle.vdm_kinds.specs.declared.access.Level.TheVariants.{Private, Public};
ghost use Rattle.class_checks.specs.Expressions.{check};
ghost use Rattle.class_checks.specs.Results.{first_fault};
ghost use Rattle.class_checks.specs.WellTyped.{main_fault};
ghost use Rattle.class_checks.specs.Worked.{at, nothing, refused, reaching, whole, yes_at, x, y, named_at, both, before, set_of, sequence_of, tuple_of, applied_to, new_at, member, bound_at, patterns, in_set};
ghost use Rattle.class_checks.specs.declared.reach.Reach.TheVariants.{Free, Init, Pure, Guard, Inv};

/// Operands that no value fits, told at the operand; and of two refusals the first in the text.
#[tactic(auto, unfolding(crate::specs::Expressions::check, crate::specs::Expressions::listed, crate::specs::Expressions::pairs_in, crate::specs::Expressions::changed, crate::specs::Expressions::applied, crate::specs::Expressions::where_true, crate::specs::Expressions::bound_by, crate::specs::Expressions::one_bound, crate::specs::Expressions::defined_in, crate::specs::Expressions::branches, crate::specs::Expressions::others_in, crate::specs::Expressions::cases_in, crate::specs::Expressions::givens, crate::specs::Expressions::givens_each, crate::specs::Expressions::givens_maplets, crate::specs::Results::after))]
pub fn operands()
    ensures left { main_fault nothing (both (yes_at 1) Plus (whole 1 8) 6) ≡ refused NoCommonValue 1 }
    ensures right { main_fault nothing (both (whole 1 1) Plus (yes_at 5) 3) ≡ refused NoCommonValue 5 }
    ensures bracket { main_fault nothing (both (whole 1 1) Plus (bracketed (both (whole 2 6) Equal (yes_at 10) 8) (at 5)) 3) ≡ refused NoCommonValue 5 }
    ensures equal { main_fault nothing (both (whole 2 1) Equal (yes_at 5) 3) ≡ None }
    ensures set { main_fault nothing (before Card (whole 3 6) 1) ≡ refused NoCommonValue 6 }
    ensures fits { main_fault nothing (both (before Card (set_of (whole 1 7 ∷ []) 6) 1) Plus (whole 1 12) 10) ≡ None }
    ensures first { main_fault nothing (both (named_at x 1) Plus (yes_at 5) 3) ≡ refused UnknownName 1 }
    ensures anything { main_fault nothing (both (undefined (at 1)) Plus (whole 1 13) 11) ≡ None }
{}

/// What is taken of the parts of a value: their form, and any form where the whole does not fit.
#[tactic(auto, unfolding(crate::specs::Expressions::check, crate::specs::Expressions::listed, crate::specs::Expressions::pairs_in, crate::specs::Expressions::changed, crate::specs::Expressions::applied, crate::specs::Expressions::where_true, crate::specs::Expressions::bound_by, crate::specs::Expressions::one_bound, crate::specs::Expressions::defined_in, crate::specs::Expressions::branches, crate::specs::Expressions::others_in, crate::specs::Expressions::cases_in, crate::specs::Expressions::givens, crate::specs::Expressions::givens_each, crate::specs::Expressions::givens_maplets, crate::specs::Results::after))]
pub fn parts_of_operands()
    ensures head { main_fault nothing (both (before Head (sequence_of (yes_at 5 ∷ []) 4) 1) Plus (whole 1 13) 11) ≡ refused NoCommonValue 1 }
    ensures mixed { main_fault nothing (both (before Head (sequence_of (yes_at 5 ∷ whole 1 11 ∷ []) 4) 1) Plus (whole 1 16) 14) ≡ None }
    ensures empty { main_fault nothing (both (before Head (sequence_of [] 4) 1) Plus (whole 1 9) 7) ≡ None }
    ensures unfit { main_fault nothing (both (before Tail (whole 3 4) 1) Plus (whole 1 8) 6) ≡ refused NoCommonValue 4 }
    ensures tuple { main_fault nothing (select_part (tuple_of (whole 1 5 ∷ whole 2 8 ∷ []) 1) (pos 3) (at 10)) ≡ refused NoCommonValue 1 }
    ensures part { main_fault nothing (select_part (tuple_of (whole 1 5 ∷ whole 2 8 ∷ []) 1) (pos 2) (at 10)) ≡ None }
{}

/// Applications that look up: a sequence by a number, a map by any key, with one argument.
#[tactic(auto, unfolding(crate::specs::Expressions::check, crate::specs::Expressions::listed, crate::specs::Expressions::pairs_in, crate::specs::Expressions::changed, crate::specs::Expressions::applied, crate::specs::Expressions::where_true, crate::specs::Expressions::bound_by, crate::specs::Expressions::one_bound, crate::specs::Expressions::defined_in, crate::specs::Expressions::branches, crate::specs::Expressions::others_in, crate::specs::Expressions::cases_in, crate::specs::Expressions::givens, crate::specs::Expressions::givens_each, crate::specs::Expressions::givens_maplets, crate::specs::Results::after))]
pub fn looking_up()
    ensures index { main_fault nothing (applied_to (sequence_of (whole 1 2 ∷ []) 1) (yes_at 5 ∷ []) 4) ≡ refused NoCommonValue 5 }
    ensures key { main_fault nothing (applied_to (map_enumeration (one_maplet (whole 1 2) (whole 2 8) no_maplets) (at 1)) (yes_at 11 ∷ []) 10) ≡ None }
    ensures number { main_fault nothing (applied_to (sequence_of (whole 1 2 ∷ []) 1) (whole 1 5 ∷ whole 2 8 ∷ []) 4) ≡ refused WrongArity 4 }
    ensures neither { main_fault nothing (applied_to (whole 1 1) (whole 2 3 ∷ []) 2) ≡ refused NoCommonValue 1 }
{}

/// What is bound, and where it is seen.
#[tactic(auto, unfolding(crate::specs::Expressions::check, crate::specs::Expressions::listed, crate::specs::Expressions::pairs_in, crate::specs::Expressions::changed, crate::specs::Expressions::applied, crate::specs::Expressions::where_true, crate::specs::Expressions::bound_by, crate::specs::Expressions::one_bound, crate::specs::Expressions::defined_in, crate::specs::Expressions::branches, crate::specs::Expressions::others_in, crate::specs::Expressions::cases_in, crate::specs::Expressions::givens, crate::specs::Expressions::givens_each, crate::specs::Expressions::givens_maplets, crate::specs::Results::after))]
pub fn binding()
    ensures no_match { main_fault nothing (let_in (one_defined (tuple_pattern (patterns (bound_at x 9 ∷ bound_at y 12 ∷ [])) (at 5)) None (whole 3 17) no_defined) (both (named_at x 22) Plus (whole 1 26) 24) (at 1)) ≡ None }
    ensures typed { main_fault nothing (let_in (one_defined (bound_at x 5) (Some (basic_type Bool (at 9))) (whole 1 16) no_defined) (named_at x 21) (at 1)) ≡ refused NoCommonValue 16 }
    ensures by_value { main_fault nothing (let_in (one_defined (bound_at x 5) None (yes_at 9) no_defined) (both (named_at x 17) Plus (whole 1 21) 19) (at 1)) ≡ refused NoCommonValue 17 }
    ensures apart { main_fault nothing (set_comprehension (both (named_at x 2) Plus (named_at y 6) 4) (one_bind (in_set (bound_at x 10 ∷ []) (set_of (whole 1 20 ∷ []) 19)) (one_bind (in_set (bound_at y 24 ∷ []) (set_of (named_at x 34 ∷ []) 33)) no_binds)) left_out (at 1)) ≡ refused UnknownName 34 }
    ensures each_pattern { main_fault nothing (cases_of (whole 1 7) (one_case (patterns (bound_at x 10 ∷ literal_pattern (whole_literal (pos 2)) (at 13) ∷ [])) (named_at x 18) no_cases) left_out (at 1)) ≡ refused UnknownName 18 }
    ensures condition { main_fault nothing (iota_of (in_set (bound_at x 6 ∷ []) (set_of (whole 1 16 ∷ []) 15)) (named_at x 21) (at 1)) ≡ refused NoCommonValue 21 }
    ensures elements { main_fault nothing (for_all (one_bind (in_set (bound_at x 8 ∷ []) (whole 3 17)) no_binds) (both (named_at x 21) Greater (whole 1 25) 23) (at 1)) ≡ refused NoCommonValue 17 }
{}

/// Conditions and branches: any of them may give the value.
#[tactic(auto, unfolding(crate::specs::Expressions::check, crate::specs::Expressions::listed, crate::specs::Expressions::pairs_in, crate::specs::Expressions::changed, crate::specs::Expressions::applied, crate::specs::Expressions::where_true, crate::specs::Expressions::bound_by, crate::specs::Expressions::one_bound, crate::specs::Expressions::defined_in, crate::specs::Expressions::branches, crate::specs::Expressions::others_in, crate::specs::Expressions::cases_in, crate::specs::Expressions::givens, crate::specs::Expressions::givens_each, crate::specs::Expressions::givens_maplets, crate::specs::Results::after))]
pub fn branches()
    ensures condition { main_fault nothing (if_else (whole 1 4) (whole 2 11) no_branches (whole 3 18) (at 1)) ≡ refused NoCommonValue 4 }
    ensures either { main_fault nothing (both (bracketed (if_else (yes_at 5) (yes_at 15) no_branches (whole 3 25) (at 2)) (at 1)) Plus (whole 1 30) 28) ≡ None }
    ensures none { main_fault nothing (both (bracketed (if_else (yes_at 5) (yes_at 15) no_branches (yes_at 25) (at 2)) (at 1)) Plus (whole 1 30) 28) ≡ refused NoCommonValue 1 }
{}

/// Names of classes and members, and places that reach less.
#[tactic(auto, unfolding(crate::specs::Expressions::check, crate::specs::Expressions::listed, crate::specs::Expressions::pairs_in, crate::specs::Expressions::changed, crate::specs::Expressions::applied, crate::specs::Expressions::where_true, crate::specs::Expressions::bound_by, crate::specs::Expressions::one_bound, crate::specs::Expressions::defined_in, crate::specs::Expressions::branches, crate::specs::Expressions::others_in, crate::specs::Expressions::cases_in, crate::specs::Expressions::givens, crate::specs::Expressions::givens_each, crate::specs::Expressions::givens_maplets, crate::specs::Results::after))]
pub fn reaching_out()
    ensures no_class { main_fault nothing (new_at a 5 1) ≡ refused UnknownName 5 }
    ensures class { main_fault (only has_v) (new_at a 5 1) ≡ None }
    ensures hidden { main_fault (only has_v) (member (new_at a 5 1) v 9 8) ≡ refused NotVisible 9 }
    ensures no_member { main_fault (only has_v) (member (new_at a 5 1) f 9 8) ≡ refused UnknownName 9 }
    ensures called { main_fault (only (has_f Public)) (applied_to (member (new_at a 5 1) f 9 8) (whole 1 11 ∷ []) 10) ≡ None }
    ensures argument { main_fault (only (has_f Public)) (applied_to (member (new_at a 5 1) f 9 8) (yes_at 11 ∷ []) 10) ≡ refused NoCommonValue 11 }
    ensures number { main_fault (only (has_f Public)) (applied_to (member (new_at a 5 1) f 9 8) [] 10) ≡ refused WrongArity 10 }
    ensures private { main_fault (only (has_f Private)) (applied_to (member (new_at a 5 1) f 9 8) (whole 1 11 ∷ []) 10) ≡ refused NotVisible 9 }
    ensures one_place { main_fault (only has_v) (qualified (name a) (name v) (at 3) (at 1)) ≡ refused UnknownName 3 }
    ensures no_self { main_fault nothing (self_object (at 1)) ≡ refused UnknownName 1 }
    ensures counter { main_fault nothing (history Finishes [] (at 1)) ≡ refused GuardReach 1 }
    ensures pure_counter { first_fault (check nothing (reaching Pure) (history Finishes [] (at 1))) ≡ refused GuardReach 1 }
    ensures guard_counter { first_fault (check nothing (reaching Guard) (history Finishes [] (at 1))) ≡ None }
    ensures pure_time { first_fault (check nothing (reaching Pure) (current_time (at 1))) ≡ refused InitReach 1 }
    ensures guard_time { first_fault (check nothing (reaching Guard) (current_time (at 1))) ≡ refused GuardReach 1 }
    ensures pure_new { first_fault (check (only has_v) (reaching Pure) (new_at a 5 1)) ≡ refused InitReach 1 }
    ensures first_new { first_fault (check (only has_v) (reaching Init) (new_at a 5 1)) ≡ None }
{}
