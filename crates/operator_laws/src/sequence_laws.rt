// Laws of sequences.

ghost use Rattle.std.specs.Prelude.{◌≡◌, ◌↔◌, ◌<◌, ℕ, suc, pos, List, Contains, length, slice_get, IfOk};
ghost use Rattle.std.specs.Option.{option_map, unwrap_or};
ghost use Rattle.vdm_kinds.specs.declared.operator.Operator.TheVariants.{Elements};
ghost use Rattle.abstract_syntax.specs.Values.{ValueTree, number};
ghost use Rattle.abstract_syntax.specs.ValueSets.{Entry};
ghost use Rattle.value_operators.specs.Members.{found};
ghost use Rattle.value_operators.specs.Sets.{members_of};
ghost use Rattle.value_operators.specs.Sequences.{positions, sequence_one, replaced};

/// The positions are the numbers from 1 to the length, and the elements are the items.
pub fn sequences_have_their_positions_and_elements()
    ensures positions { (vs : List ValueTree) (v : ValueTree) → Contains (members_of (positions vs)) v ↔ ((k : ℕ) × (v ≡ number (pos (suc k))) × (k < length vs)) }
    ensures elements { (vs : List ValueTree) (v : ValueTree) → IfOk (sequence_one Elements vs) (λ s. Contains (members_of s) v ↔ Contains vs v) }
{}

/// An override keeps the length, and has at each position what the map has there, or else the item.
pub fn overridden_sequences_have_the_maps_values()
    ensures length { (ps : List Entry) (vs : List ValueTree) → length (replaced ps (pos 1) vs) ≡ length vs }
    ensures item { (ps : List Entry) (vs : List ValueTree) (k : ℕ) → slice_get (replaced ps (pos 1) vs) k ≡ option_map (unwrap_or (found ps (number (pos (suc k))))) (slice_get vs k) }
{}
