// Patterns worked out, with the names by their numbers.

ghost use Rattle.std.specs.Prelude.{◌≡◌, [], ◌∷◌, Some, None};
ghost use Rattle.pattern_meaning.specs.Bindings.{first_binding};
ghost use Rattle.pattern_meaning.specs.Worked.{name, num, seq, set, pairs, mk, rec, x, lit, dash, value, seq_of, set_of_, map_of_, empty_map, mk_of, cat, rec_of, types, first};

/// The shortest front is tried first; a front and the rest may be empty; equal names want equal values.
pub fn fronts()
    ensures shortest { first (cat (x 1 ∷ x 2 ∷ [])) (seq (num 5 ∷ num 6 ∷ [])) ≡ Some ((name 1, seq []) ∷ (name 2, seq (num 5 ∷ num 6 ∷ [])) ∷ []) }
    ensures middle { first (cat (seq_of (x 1 ∷ []) ∷ x 2 ∷ seq_of (x 3 ∷ []) ∷ [])) (seq (num 5 ∷ num 6 ∷ [])) ≡ Some ((name 1, num 5) ∷ (name 2, seq []) ∷ (name 3, num 6) ∷ []) }
    ensures halves { first (cat (x 1 ∷ x 1 ∷ [])) (seq (num 5 ∷ num 6 ∷ num 5 ∷ num 6 ∷ [])) ≡ Some ((name 1, seq (num 5 ∷ num 6 ∷ [])) ∷ []) }
    ensures no_halves { first (cat (x 1 ∷ x 1 ∷ [])) (seq (num 5 ∷ num 6 ∷ num 5 ∷ [])) ≡ None }
    ensures too_short { first (cat (seq_of (x 1 ∷ []) ∷ x 2 ∷ seq_of (x 3 ∷ []) ∷ [])) (seq (num 5 ∷ [])) ≡ None }
    ensures no_sequence { first (cat (x 1 ∷ x 2 ∷ [])) (set []) ≡ None }
{}

/// Elements and pairs are taken from the first one on, each pattern its own; as many patterns as elements.
pub fn sets_and_maps()
    ensures in_order { first (set_of_ (x 1 ∷ x 2 ∷ [])) (set (num 5 ∷ num 6 ∷ [])) ≡ Some ((name 1, num 5) ∷ (name 2, num 6) ∷ []) }
    ensures literal { first (set_of_ (lit 6 ∷ x 1 ∷ [])) (set (num 5 ∷ num 6 ∷ [])) ≡ Some ((name 1, num 5) ∷ []) }
    ensures one_name { first (set_of_ (x 1 ∷ x 1 ∷ [])) (set (num 5 ∷ num 6 ∷ [])) ≡ None }
    ensures one_element { first (set_of_ (x 1 ∷ x 1 ∷ [])) (set (num 5 ∷ [])) ≡ None }
    ensures empty { first (set_of_ []) (set []) ≡ Some [] }
    ensures not_empty { first (set_of_ []) (set (num 5 ∷ [])) ≡ None }
    ensures later { first (mk_of (set_of_ (x 1 ∷ x 2 ∷ []) ∷ x 1 ∷ [])) (mk (set (num 5 ∷ num 6 ∷ []) ∷ num 6 ∷ [])) ≡ Some ((name 1, num 6) ∷ (name 2, num 5) ∷ []) }
    ensures map { first (map_of_ ((x 1, lit 8) ∷ (x 2, x 3) ∷ [])) (pairs ((num 5, num 7) ∷ (num 6, num 8) ∷ [])) ≡ Some ((name 1, num 6) ∷ (name 2, num 5) ∷ (name 3, num 7) ∷ []) }
    ensures no_map { first empty_map (pairs ((num 5, num 7) ∷ [])) ≡ None }
    ensures empty_map { first empty_map (pairs []) ≡ Some [] }
{}

/// Records match by their type; values of brackets are taken in text order.
pub fn records_and_brackets()
    ensures own { first (rec_of 3 (x 1 ∷ dash ∷ [])) (rec 7 3 (num 5 ∷ num 6 ∷ [])) ≡ Some ((name 1, num 5) ∷ []) }
    ensures other { first (rec_of 3 (x 1 ∷ dash ∷ [])) (rec 7 4 (num 5 ∷ num 6 ∷ [])) ≡ None }
    ensures other_class { first (rec_of 3 (x 1 ∷ dash ∷ [])) (rec 8 3 (num 5 ∷ num 6 ∷ [])) ≡ None }
    ensures no_type { first (rec_of 9 (x 1 ∷ [])) (rec 7 9 (num 5 ∷ [])) ≡ None }
    ensures fields { first (rec_of 3 (x 1 ∷ [])) (rec 7 3 (num 5 ∷ num 6 ∷ [])) ≡ None }
    ensures given { first_binding types (mk_of (value ∷ x 1 ∷ value ∷ [])) (num 5 ∷ num 7 ∷ []) (mk (num 5 ∷ num 6 ∷ num 7 ∷ [])) ≡ Some ((name 1, num 6) ∷ []) }
    ensures not_given { first_binding types (mk_of (value ∷ x 1 ∷ value ∷ [])) (num 7 ∷ num 5 ∷ []) (mk (num 5 ∷ num 6 ∷ num 7 ∷ [])) ≡ None }
    ensures repeated { first (mk_of (x 1 ∷ x 1 ∷ x 2 ∷ [])) (mk (num 5 ∷ num 5 ∷ num 6 ∷ [])) ≡ Some ((name 1, num 5) ∷ (name 2, num 6) ∷ []) }
    ensures unequal { first (mk_of (x 1 ∷ x 1 ∷ [])) (mk (num 5 ∷ num 6 ∷ [])) ≡ None }
{}
