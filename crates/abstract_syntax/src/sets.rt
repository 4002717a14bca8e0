// The laws of sets and maps as values.

ghost use Rattle.std.specs.Prelude.{◌≡◌, ◌↔◌, List, Contains, All};
ghost use Rattle.std.specs.List.Sorted.{IsStrictlySortedBy};
ghost use Rattle.abstract_syntax.specs.Values.{ValueTree};
ghost use Rattle.abstract_syntax.specs.ValueOrder.{value_order};
ghost use Rattle.abstract_syntax.specs.Rising.{rising};
ghost use Rattle.abstract_syntax.specs.ValueSets.{Entry, pair_order, key_order, set_value, map_value, HasConflict, IsCanonical};

/// Insertion gives a strictly rising list with the same members, and there is no other.
pub fn sets_are_told_by_their_members()
    ensures rises { (items : List ValueTree) → IsStrictlySortedBy value_order (rising value_order items) }
    ensures members { (items : List ValueTree) (v : ValueTree) → Contains (rising value_order items) v ↔ Contains items v }
    ensures once { (vs ws : List ValueTree) → IsStrictlySortedBy value_order vs → IsStrictlySortedBy value_order ws → ((v : ValueTree) → Contains vs v ↔ Contains ws v) → vs ≡ ws }
{}

/// Where no key has two different values, the map rises strictly by key and has the same pairs, and no other such list has; where
/// a key has two, no such list has.
pub fn maps_are_told_by_their_pairs()
    ensures rises { (pairs : List Entry) → (HasConflict pairs → ⊥) → IsStrictlySortedBy key_order (rising pair_order pairs) }
    ensures members { (pairs : List Entry) (p : Entry) → Contains (rising pair_order pairs) p ↔ Contains pairs p }
    ensures once { (ps qs : List Entry) → IsStrictlySortedBy key_order ps → IsStrictlySortedBy key_order qs → ((p : Entry) → Contains ps p ↔ Contains qs p) → ps ≡ qs }
    ensures conflict { (pairs ps : List Entry) → HasConflict pairs → IsStrictlySortedBy key_order ps → ((p : Entry) → Contains ps p ↔ Contains pairs p) → ⊥ }
{}

/// A set or map of canonical values is canonical.
pub fn sets_and_maps_are_canonical()
    ensures sets { (items : List ValueTree) → All IsCanonical items → IsCanonical (set_value items) }
    ensures maps { (pairs : List Entry) → (HasConflict pairs → ⊥) → All (λ (p : Entry). IsCanonical p.0 × IsCanonical p.1) pairs → IsCanonical (map_value pairs) }
{}
