// The laws of runs, and expressions worked out. Each is the contract of a function that does nothing.

ghost use Rattle.std.specs.Prelude.{◌≡◌, ℕ, ◌^◌, ◌-◌, false, true, List, [], ◌∷◌, ◌++◌, ◌⊎◌, pos, map, None, IsSome};
ghost use Rattle.std.specs.List.{AllByRecursion as Each};
ghost use Rattle.vdm_kinds.specs.NameList.{io};
ghost use Rattle.vdm_kinds.specs.declared.sign.Sign.TheVariants.{Plus};
ghost use Rattle.vdm_kinds.specs.declared.place.Place.{Place};
ghost use Rattle.vdm_kinds.specs.declared.run_fault.RunFault.TheVariants.{DivideByZero, Overflow, StepLimit, TypeFault};
ghost use Rattle.vdm_values.specs.declared.slot.Slot.TheVariants.{Unset, Held};
ghost use Rattle.abstract_syntax.specs.Values.{boolean, number};
ghost use Rattle.abstract_syntax.specs.Classes.{ClassTree, SpecTree};
ghost use Rattle.abstract_syntax.specs.Literals.{whole_literal};
ghost use Rattle.abstract_syntax.specs.Expressions.{ExprTree, literal, joined};
ghost use Rattle.run_journal.specs.declared.answer.Answer.TheVariants.{Done};
ghost use Rattle.run_journal.specs.declared.entry.Entry.{Entry};
ghost use Rattle.run_journal.specs.declared.question.Question.{Question};
ghost use Rattle.run_journal.specs.declared.question.Question.TheVariants.{Class, End, Fail};
ghost use Rattle.run_journal.specs.declared.thread.Thread.TheVariants.{Main};
ghost use Rattle.run_journal.specs.Made.{answer_of};
ghost use Rattle.run_journal.specs.Parts.{thread_part};
ghost use Rattle.vdm_meaning.specs.Main.{asks, over, main_code};
ghost use Rattle.vdm_legal.specs.ClassObjects.{IsInTurn};
ghost use Rattle.vdm_legal.specs.Order.{IsInOrder};
ghost use Rattle.vdm_legal.specs.Ready.{IsReady};
ghost use Rattle.vdm_legal.specs.Finishes.{finish_of};
ghost use Rattle.vdm_legal.specs.State.{class_variables, keeps_with};
ghost use Rattle.stmt_meaning.specs.Keeping.{keeps};
ghost use Rattle.vdm_meaning.specs.Runs.{IsRun};
ghost use Rattle.vdm_meaning.specs.WorkedCalls.{base_spec, said_at_first, one_faults, two_misfit, added, said_added, misfit, said_misfit, false_pre, said_false_pre, constructor_pre, said_constructor_pre, constructor_misfit, said_constructor_misfit, static_call, said_static_call, static_through, said_static_through, static_inside, said_static_inside, constructor_given, said_constructor_given, together, said_together, two_olds, said_two_olds, late, said_late, of_class, said_of_class, exit_of_pre, said_exit_of_pre, trapped_exit, said_trapped_exit, no_result, said_no_result, nothing_given, said_nothing_given, nothing_wanted, said_nothing_wanted, false_post, said_false_post, unwritten_pre, said_unwritten_pre, unwritten, said_unwritten, unset_old, said_unset_old, no_match, said_no_match, itself, said_itself, wrong_result, said_wrong_result, static_of_object, said_static_of_object};
ghost use Rattle.vdm_meaning.specs.WorkedInvariants.{level_set, overfilled, said_overfilled, said_too_full, tank, tank_made, tank_spec, var_level};
ghost use Rattle.vdm_meaning.specs.WorkedPrints.{base, sub, two_classes, said_before, printed, said_printed, printed_line, said_line, printed_through, said_through, told, said_told, sub_is_base, base_is_sub, sub_has_base, sub_is_no_base, said_of, not_the_same, the_same_base, no_object, said_of_both, said_of_none};
ghost use Rattle.vdm_meaning.specs.Worked.{counter_spec, new_counter_three, said, said_first, said_for_the_object, said_for_inc, AreSaid, answers_in, in_spec, in_expr};

/// Each front of a run is a run.
pub fn fronts_of_runs_are_runs()
    ensures { (names : List (List ℕ)) (spec : SpecTree) (tree : ExprTree) (units : ℕ) (front rest : List Entry)
        → IsRun names spec tree units (front ++ rest)
        → IsRun names spec tree units front }
{}

/// Nothing stands behind main's end or a failure.
pub fn nothing_stands_behind_an_end()
    ensures { (names : List (List ℕ)) (spec : SpecTree) (tree : ExprTree) (units : ℕ) (before : List Entry) (entry : Entry)
        → IsRun names spec tree units (before ++ entry ∷ [])
        → finish_of before ≡ None }
{}

/// What main asks behind a run can be answered: each activation has its request, each finish its activation, and what is read or
/// written stands on an object that is there.
pub fn what_is_asked_is_ready()
    ensures { (names : List (List ℕ)) (spec : SpecTree) (tree : ExprTree) (units : ℕ) (entries : List Entry) (question : Question)
        → IsRun names spec tree units entries
        → main_code names spec tree units (map answer_of (thread_part Main entries)) ≡ asks question
        → IsReady spec entries question }
{}

/// Before all class objects are made main asks for these alone, or fails: the initialisers of static variables ask nothing.
pub fn class_objects_come_first()
    ensures { (names : List (List ℕ)) (spec : SpecTree) (tree : ExprTree) (units : ℕ) (entries : List Entry) (question : Question)
        → IsRun names spec tree units entries
        → main_code names spec tree units (map answer_of (thread_part Main entries)) ≡ asks question
        → IsInTurn spec entries question }
{}

/// A run in the order of one lane that is not finished goes on in that order: some entry may stand behind it.
pub fn an_unfinished_run_goes_on()
    ensures { (names : List (List ℕ)) (spec : SpecTree) (tree : ExprTree) (units : ℕ) (entries : List Entry)
        → IsRun names spec tree units entries
        → IsInOrder spec entries
        → finish_of entries ≡ None
        → (entry : Entry) × IsRun names spec tree units (entries ++ entry ∷ []) × IsInOrder spec (entries ++ entry ∷ []) }
{}

/// Of two runs in the order of one lane, of one specification and expression with the same units, one is a front of the other.
pub fn one_run()
    ensures { (names : List (List ℕ)) (spec : SpecTree) (tree : ExprTree) (units : ℕ) (a b : List Entry)
        → IsRun names spec tree units a
        → IsRun names spec tree units b
        → IsInOrder spec a
        → IsInOrder spec b
        → ((rest : List Entry) × (a ++ rest ≡ b)) ⊎ ((rest : List Entry) × (b ++ rest ≡ a)) }
{}

/// The specification, the expression and the units determine the journal of one lane: two runs in its order that finished are the same.
pub fn a_finished_run_has_one_end()
    ensures { (names : List (List ℕ)) (spec : SpecTree) (tree : ExprTree) (units : ℕ) (a b : List Entry)
        → IsRun names spec tree units a
        → IsRun names spec tree units b
        → IsInOrder spec a
        → IsInOrder spec b
        → IsSome (finish_of a)
        → IsSome (finish_of b)
        → a ≡ b }
{}

/// Each specification and expression have a finished run in the order of one lane, whatever the units are.
pub fn a_finished_run_exists()
    ensures { (names : List (List ℕ)) (spec : SpecTree) (tree : ExprTree) (units : ℕ)
        → (a : List Entry) × IsRun names spec tree units a × IsInOrder spec a × IsSome (finish_of a) }
{}

/// What main asks for `1 + 1` and for a sum that is one too large, wherever their tokens stand, where the specification is
/// empty; and what it asks for `1 + 1` beside one class, without static variables.
pub fn worked_sums()
    ensures first { (p q plus : Place)
        → main_code [] (record { classes = [] }) (joined (literal (whole_literal (pos 1)) p) Plus (literal (whole_literal (pos 1)) q) plus) 3 [] ≡ asks (Class 0 io []) }
    ensures ends { (p q plus : Place)
        → main_code [] (record { classes = [] }) (joined (literal (whole_literal (pos 1)) p) Plus (literal (whole_literal (pos 1)) q) plus) 3 (Done ∷ [])
        ≡ asks (End (Held (number (pos 2)))) }
    ensures stops { (p q plus : Place)
        → main_code [] (record { classes = [] }) (joined (literal (whole_literal (pos 1)) p) Plus (literal (whole_literal (pos 1)) q) plus) 3 (Done ∷ Done ∷ []) ≡ over }
    ensures too_few_units { (p q plus : Place)
        → main_code [] (record { classes = [] }) (joined (literal (whole_literal (pos 1)) p) Plus (literal (whole_literal (pos 1)) q) plus) 2 (Done ∷ [])
        ≡ asks (Fail StepLimit Unset q) }
    ensures overflows { (p q plus : Place)
        → main_code [] (record { classes = [] }) (joined (literal (whole_literal (pos (2 ^ 127 - 1))) p) Plus (literal (whole_literal (pos 1)) q) plus) 3 (Done ∷ [])
        ≡ asks (Fail Overflow Unset plus) }
    ensures first_beside_a_class { (class : ClassTree) (p q plus : Place)
        → main_code [] (record { classes = class ∷ [] }) (joined (literal (whole_literal (pos 1)) p) Plus (literal (whole_literal (pos 1)) q) plus) 3 []
        ≡ asks (Class 0 io []) }
    ensures makes_the_class { (class : ClassTree) (p q plus : Place) → class_variables (record { classes = class ∷ [] }) class.name ≡ []
        → main_code [] (record { classes = class ∷ [] }) (joined (literal (whole_literal (pos 1)) p) Plus (literal (whole_literal (pos 1)) q) plus) 3 (Done ∷ [])
        ≡ asks (Class 1 class.name []) }
    ensures ends_beside_a_class { (class : ClassTree) (p q plus : Place) → class_variables (record { classes = class ∷ [] }) class.name ≡ []
        → main_code [] (record { classes = class ∷ [] }) (joined (literal (whole_literal (pos 1)) p) Plus (literal (whole_literal (pos 1)) q) plus) 3 (Done ∷ Done ∷ [])
        ≡ asks (End (Held (number (pos 2)))) }
    ensures stops_beside_a_class { (class : ClassTree) (p q plus : Place) → class_variables (record { classes = class ∷ [] }) class.name ≡ []
        → main_code [] (record { classes = class ∷ [] }) (joined (literal (whole_literal (pos 1)) p) Plus (literal (whole_literal (pos 1)) q) plus) 3 (Done ∷ Done ∷ Done ∷ [])
        ≡ over }
{}

/// What main asks for `new Counter().three()`, question by question to the end with 3, for which 24 units suffice; and where it
/// fails with fewer: at the whole call, at the new object, at its initialiser, at the body of `three`, at its first statement, at
/// the call in that, and at the last name.
pub fn worked_counter()
    ensures said { AreSaid counter_spec new_counter_three 24 [] said }
    ensures no_unit { main_code [] counter_spec new_counter_three 0 (answers_in said_first) ≡ asks (Fail StepLimit Unset (in_expr 20)) }
    ensures none_for_the_object { main_code [] counter_spec new_counter_three 1 (answers_in said_first)
        ≡ asks (Fail StepLimit Unset (in_expr 1)) }
    ensures none_for_the_initialiser { main_code [] counter_spec new_counter_three 2 (answers_in said_first)
        ≡ asks (Fail StepLimit Unset (in_spec 3 14)) }
    ensures none_for_the_body { main_code [] counter_spec new_counter_three 3 (answers_in (said_first ++ said_for_the_object))
        ≡ asks (Fail StepLimit Unset (in_spec 8 14)) }
    ensures none_for_the_statement { main_code [] counter_spec new_counter_three 4 (answers_in (said_first ++ said_for_the_object))
        ≡ asks (Fail StepLimit Unset (in_spec 8 15)) }
    ensures none_for_the_call { main_code [] counter_spec new_counter_three 5 (answers_in (said_first ++ said_for_the_object))
        ≡ asks (Fail StepLimit Unset (in_spec 8 18)) }
    ensures none_for_the_last_name { main_code [] counter_spec new_counter_three 23
        (answers_in (said_first ++ said_for_the_object ++ said_for_inc 0 1 ++ said_for_inc 1 2 ++ said_for_inc 2 3))
        ≡ asks (Fail StepLimit Unset (in_spec 8 43)) }
{}

/// What main asks for calls, behind its three class objects: with `pre`, `post` and old values, of constructors and static operations,
/// with exits and faults; and where the initialisers of static variables fault, all of which come before the tests of their types.
pub fn worked_calls()
    ensures added { AreSaid base_spec added 60 [] (said_at_first ++ said_added) }
    ensures misfit { AreSaid base_spec misfit 60 [] (said_at_first ++ said_misfit) }
    ensures false_pre { AreSaid base_spec false_pre 60 [] (said_at_first ++ said_false_pre) }
    ensures constructor_pre { AreSaid base_spec constructor_pre 60 [] (said_at_first ++ said_constructor_pre) }
    ensures constructor_misfit { AreSaid base_spec constructor_misfit 60 [] (said_at_first ++ said_constructor_misfit) }
    ensures static_call { AreSaid base_spec static_call 60 [] (said_at_first ++ said_static_call) }
    ensures static_through { AreSaid base_spec static_through 60 [] (said_at_first ++ said_static_through) }
    ensures static_inside { AreSaid base_spec static_inside 60 [] (said_at_first ++ said_static_inside) }
    ensures constructor_given { AreSaid base_spec constructor_given 60 [] (said_at_first ++ said_constructor_given) }
    ensures together { AreSaid base_spec together 60 [] (said_at_first ++ said_together) }
    ensures two_olds { AreSaid base_spec two_olds 60 [] (said_at_first ++ said_two_olds) }
    ensures late { AreSaid base_spec late 60 [] (said_at_first ++ said_late) }
    ensures of_class { AreSaid base_spec of_class 60 [] (said_at_first ++ said_of_class) }
    ensures exit_of_pre { AreSaid base_spec exit_of_pre 60 [] (said_at_first ++ said_exit_of_pre) }
    ensures trapped_exit { AreSaid base_spec trapped_exit 60 [] (said_at_first ++ said_trapped_exit) }
    ensures no_result { AreSaid base_spec no_result 60 [] (said_at_first ++ said_no_result) }
    ensures nothing_given { AreSaid base_spec nothing_given 60 [] (said_at_first ++ said_nothing_given) }
    ensures nothing_wanted { AreSaid base_spec nothing_wanted 60 [] (said_at_first ++ said_nothing_wanted) }
    ensures false_post { AreSaid base_spec false_post 60 [] (said_at_first ++ said_false_post) }
    ensures unwritten_pre { AreSaid base_spec unwritten_pre 60 [] (said_at_first ++ said_unwritten_pre) }
    ensures unwritten { AreSaid base_spec unwritten 60 [] (said_at_first ++ said_unwritten) }
    ensures unset_old { AreSaid base_spec unset_old 60 [] (said_at_first ++ said_unset_old) }
    ensures no_match { AreSaid base_spec no_match 60 [] (said_at_first ++ said_no_match) }
    ensures itself { AreSaid base_spec itself 60 [] (said_at_first ++ said_itself) }
    ensures wrong_result { AreSaid base_spec wrong_result 60 [] (said_at_first ++ said_wrong_result) }
    ensures static_of_object { AreSaid base_spec static_of_object 60 [] (said_at_first ++ said_static_of_object) }
    ensures one_faults { main_code [] one_faults added 60 (Done ∷ []) ≡ asks (Fail DivideByZero Unset (in_spec 4 23)) }
    ensures two_misfit { main_code [] two_misfit added 60 (Done ∷ []) ≡ asks (Fail TypeFault Unset (in_spec 3 23)) }
{}

/// What main asks for prints, the time and tests of classes, behind its three class objects: a print is one question and no call, and a
/// test asks nothing.
pub fn worked_prints()
    ensures printed { AreSaid two_classes printed 2 [] (said_before ++ said_printed) }
    ensures line { AreSaid two_classes printed_line 2 [] (said_before ++ said_line) }
    ensures through { AreSaid two_classes printed_through 3 [] (said_before ++ said_through) }
    ensures told { AreSaid two_classes told 3 [] (said_before ++ said_told) }
    ensures sub_is_base { AreSaid two_classes sub_is_base 2 [] (said_before ++ said_of sub (boolean true)) }
    ensures base_is_sub { AreSaid two_classes base_is_sub 2 [] (said_before ++ said_of base (boolean false)) }
    ensures sub_has_base { AreSaid two_classes sub_has_base 2 [] (said_before ++ said_of sub (boolean true)) }
    ensures sub_is_no_base { AreSaid two_classes sub_is_no_base 2 [] (said_before ++ said_of sub (boolean false)) }
    ensures not_the_same { AreSaid two_classes not_the_same 3 [] (said_before ++ said_of_both (boolean false)) }
    ensures the_same_base { AreSaid two_classes the_same_base 3 [] (said_before ++ said_of_both (boolean true)) }
    ensures no_object { AreSaid two_classes no_object 3 [] (said_before ++ said_of_none) }
{}

/// An invariant that wants a level below three: a write of two keeps it, one of three is refused, and a level that is unset counts as
/// kept. Main fails where its write was refused, and where a new object would not keep it.
pub fn worked_invariants()
    ensures low { keeps_with (tank_spec 1) tank_made (level_set 2) ≡ true }
    ensures high { keeps_with (tank_spec 1) tank_made (level_set 3) ≡ false }
    ensures unset { keeps (tank_spec 1) tank ((var_level, Unset) ∷ []) ≡ true }
    ensures overfilled { AreSaid (tank_spec 1) overfilled 60 [] said_overfilled }
    ensures too_full { AreSaid (tank_spec 5) overfilled 60 [] said_too_full }
{}
