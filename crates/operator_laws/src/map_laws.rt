// Laws of maps.

ghost use Rattle.std.specs.Prelude.{◌≡◌, ◌↔◌, ◌⊎◌, List, Contains, IfOk, Some, Err, ◌++◌};
ghost use Rattle.std.specs.List.Sorted.{IsStrictlySortedBy};
ghost use Rattle.vdm_kinds.specs.declared.operator.Operator.TheVariants.{Domain, Range};
ghost use Rattle.vdm_kinds.specs.declared.run_fault.RunFault.TheVariants.{MapConflict};
ghost use Rattle.abstract_syntax.specs.Values.{ValueTree};
ghost use Rattle.abstract_syntax.specs.ValueSets.{Entry, key_order, map_value, HasConflict};
ghost use Rattle.value_operators.specs.Outcomes.{sized};
ghost use Rattle.value_operators.specs.Members.{found};
ghost use Rattle.value_operators.specs.Sets.{members_of};
ghost use Rattle.value_operators.specs.Maps.{pairs_of, keys, map_one, turned, joined, merged, overridden, kept_keys, removed_keys, kept_values, removed_values, composed};
ghost use Rattle.operator_laws.specs.Shares.{HasSome};

/// The domain has the keys, and the range the values.
pub fn maps_have_their_pairs()
    ensures domain { (ps : List Entry) (k : ValueTree) → IfOk (map_one Domain ps) (λ s. Contains (members_of s) k ↔ ((v : ValueTree) × Contains ps (k, v))) }
    ensures range { (ps : List Entry) (v : ValueTree) → IfOk (map_one Range ps) (λ s. Contains (members_of s) v ↔ ((k : ValueTree) × Contains ps (k, v))) }
{}

/// In a map whose keys rise, what is found at a key is the value of its pair.
pub fn look_ups_find_pairs()
    ensures { (ps : List Entry) (k v : ValueTree) → IsStrictlySortedBy key_order ps → (found ps k ≡ Some v) ↔ Contains ps (k, v) }
{}

/// A union of maps and their merge have the pairs of all, and an inverse has each turned; the fault is exactly that one key would
/// have two values.
pub fn unions_of_maps_have_their_pairs()
    ensures union { (ps qs : List Entry) (p : Entry) → IfOk (joined (ps ++ qs)) (λ m. Contains (pairs_of m) p ↔ Contains ps p ⊎ Contains qs p) }
    ensures merge { (maps : List (List Entry)) (p : Entry) → IfOk (merged maps) (λ m. Contains (pairs_of m) p ↔ HasSome maps p) }
    ensures inverse { (ps : List Entry) (k v : ValueTree) → IfOk (joined (turned ps)) (λ m. Contains (pairs_of m) (v, k) ↔ Contains ps (k, v)) }
    ensures conflict { (ps : List Entry) → HasConflict ps → joined ps ≡ Err MapConflict }
    ensures free { (ps : List Entry) → (HasConflict ps → ⊥) → joined ps ≡ sized (map_value ps) }
{}

/// An override has the pairs of the right one, and those of the left one whose keys the right one lacks. A restriction has the pairs
/// whose key, or whose value, is in the set, and a removal those whose key or value is not.
pub fn overrides_and_restrictions_have_their_pairs()
    ensures overridden { (ps qs : List Entry) (p : Entry) → Contains (pairs_of (overridden ps qs)) p ↔ (Contains ps p × (Contains (keys qs) p.0 → ⊥)) ⊎ Contains qs p }
    ensures with_keys { (vs : List ValueTree) (ps : List Entry) (p : Entry) → Contains (pairs_of (kept_keys vs ps)) p ↔ Contains ps p × Contains vs p.0 }
    ensures without_keys { (vs : List ValueTree) (ps : List Entry) (p : Entry) → Contains (pairs_of (removed_keys vs ps)) p ↔ Contains ps p × (Contains vs p.0 → ⊥) }
    ensures with_values { (vs : List ValueTree) (ps : List Entry) (p : Entry) → Contains (pairs_of (kept_values vs ps)) p ↔ Contains ps p × Contains vs p.1 }
    ensures without_values { (vs : List ValueTree) (ps : List Entry) (p : Entry) → Contains (pairs_of (removed_values vs ps)) p ↔ Contains ps p × (Contains vs p.1 → ⊥) }
{}

/// A composition leads from a key of the right one by its value there, a key of the left one, to what the left one has.
pub fn compositions_have_their_pairs()
    ensures { (ps qs : List Entry) (k w : ValueTree) → IsStrictlySortedBy key_order ps → IfOk (composed ps qs) (λ m. Contains (pairs_of m) (k, w) ↔ ((v : ValueTree) × Contains qs (k, v) × Contains ps (v, w))) }
{}
