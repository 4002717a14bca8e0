// Types worked out.

ghost use Rattle.std.specs.Prelude.{◌≡◌, negsuc, true, false, [], ◌∷◌, Some, None};
ghost use Rattle.vdm_kinds.specs.declared.basic_type.BasicType.TheVariants.{Bool as Truth, Nat, Nat1, Int, Token};
ghost use Rattle.abstract_syntax.specs.Types.{set_type, seq_type, seq1_type, map_type, inmap_type, optional_type, product_type, quote_type, one_type, no_types};
ghost use Rattle.abstract_syntax.specs.Values.{nil, number, quote, token, tuple, set_of, object, record_of, value_trees};
ghost use Rattle.type_meaning.specs.Tests.{no_tests, holds, one_holds, no_choices, choice, fits, wrong_type, wrong_invariant, decided, asks, fitting};
ghost use Rattle.type_meaning.specs.Worked.{here, name, num, seq, pairs, basic, named, either, small, both_small, wants};

/// Basic types, quotes, and values of another kind.
pub fn leaves()
    ensures natural { wants (basic Nat) (num 0) ≡ Some no_tests }
    ensures negative { wants (basic Nat) (number (negsuc 0)) ≡ None }
    ensures integer { wants (basic Int) (number (negsuc 0)) ≡ Some no_tests }
    ensures positive { wants (basic Nat1) (num 0) ≡ None }
    ensures other { wants (basic Truth) (num 0) ≡ None }
    ensures any_token { wants (basic Token) (token nil) ≡ Some no_tests }
    ensures quoted { wants (quote_type (name 7) here) (quote (name 7)) ≡ Some no_tests }
    ensures other_quote { wants (quote_type (name 7) here) (quote (name 8)) ≡ None }
    ensures unlike { wants (set_type (basic Nat) here) (seq []) ≡ None }
{}

/// The invariants of parts in their order, and a type's own last; the shape alone where some part has another one.
pub fn invariants_of_parts()
    ensures own { wants (named 10) (num 3) ≡ Some (holds small (num 3) no_tests) }
    ensures shape_first { wants (named 10) (number (negsuc 0)) ≡ None }
    ensures fields { wants (named 11) (record_of (name 5) (name 11) (value_trees (num 1 ∷ num 2 ∷ []))) ≡ Some (holds small (num 1) (holds small (num 2) (holds both_small (record_of (name 5) (name 11) (value_trees (num 1 ∷ num 2 ∷ []))) no_tests))) }
    ensures too_few { wants (named 11) (record_of (name 5) (name 11) (value_trees (num 1 ∷ []))) ≡ None }
    ensures other_record { wants (named 11) (record_of (name 5) (name 12) (value_trees (num 1 ∷ num 2 ∷ []))) ≡ None }
    ensures items { wants (seq_type (named 10) here) (seq (num 2 ∷ num 1 ∷ [])) ≡ Some (holds small (num 2) (holds small (num 1) no_tests)) }
    ensures some_part { wants (seq_type (named 10) here) (seq (num 2 ∷ nil ∷ [])) ≡ None }
    ensures no_item { wants (seq_type (named 10) here) (seq []) ≡ Some no_tests }
    ensures one_at_least { wants (seq1_type (named 10) here) (seq []) ≡ None }
    ensures factors { wants (product_type (one_type (basic Truth) (one_type (named 10) no_types)) here) (tuple (value_trees (num 1 ∷ num 2 ∷ []))) ≡ None }
    ensures fewer_parts { wants (product_type (one_type (named 10) (one_type (named 10) no_types)) here) (tuple (value_trees (num 1 ∷ []))) ≡ None }
{}

/// Keys before values, values that stand twice, and objects of classes below.
pub fn maps_and_objects()
    ensures key_first { wants (map_type (named 10) (named 10) here) (pairs ((num 1, num 2) ∷ [])) ≡ Some (holds small (num 1) (holds small (num 2) no_tests)) }
    ensures twice { wants (inmap_type (basic Nat) (basic Nat) here) (pairs ((num 1, num 3) ∷ (num 2, num 3) ∷ [])) ≡ None }
    ensures once { wants (inmap_type (basic Nat) (basic Nat) here) (pairs ((num 1, num 3) ∷ (num 2, num 4) ∷ [])) ≡ Some no_tests }
    ensures below_it { wants (named 7) (object 3 (name 9)) ≡ Some no_tests }
    ensures not_below { wants (named 7) (object 3 (name 8)) ≡ None }
{}

/// A union wants nothing where its first type of the shape does; else its types of the shape are tried as written. `[T]` takes nil
/// before T is tried.
pub fn unions()
    ensures tried { wants (either (named 10) (basic Int)) (num 3) ≡ Some (one_holds (choice (holds small (num 3) no_tests) (choice no_tests no_choices)) no_tests) }
    ensures only_shapes { wants (either (named 10) (basic Truth)) (num 3) ≡ Some (one_holds (choice (holds small (num 3) no_tests) no_choices) no_tests) }
    ensures first { wants (either (basic Int) (named 10)) (num 3) ≡ Some no_tests }
    ensures neither { wants (either (named 10) (basic Truth)) nil ≡ None }
    ensures nothing { wants (optional_type (either (named 10) (basic Truth)) here) nil ≡ Some no_tests }
    ensures something { wants (optional_type (named 10) here) (num 3) ≡ Some (holds small (num 3) no_tests) }
{}

/// The first alternative that holds decides, and behind the last the value misses an invariant.
pub fn decisions()
    ensures shape { fitting None ≡ decided wrong_type }
    ensures plain { fitting (Some no_tests) ≡ decided fits }
    ensures in_order { fitting (Some (holds small (num 1) (holds small (num 2) no_tests))) ≡ asks small (num 1) (asks small (num 2) (decided fits) (decided wrong_invariant)) (decided wrong_invariant) }
    ensures next_one { fitting (Some (one_holds (choice (holds small (num 1) no_tests) (choice (holds both_small (num 1) no_tests) no_choices)) no_tests)) ≡ asks small (num 1) (decided fits) (asks both_small (num 1) (decided fits) (decided wrong_invariant)) }
{}
