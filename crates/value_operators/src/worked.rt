// Rows of the table of operators, worked out.

ghost use Rattle.std.specs.Prelude.{◌≡◌, [], ◌∷◌, pos, negsuc, true, false, Ok, Err};
ghost use Rattle.vdm_kinds.specs.declared.operator.Operator.TheVariants.{Negative, Plus, Div, Rem, Mod, Exponent, NotEqual, Union, Inter, Difference, ProperSubset, Subset, InSet, Interval, PowerSet, DistributedUnion, DistributedInter};
ghost use Rattle.vdm_kinds.specs.declared.operator.Operator.TheVariants.{Concatenation, Head, Tail, Indices, Elements, LookUp, Override, Merge, MapUnion, Inverse, Composition, DomainRestriction, RangeRemoval};
ghost use Rattle.vdm_kinds.specs.declared.run_fault.RunFault.TheVariants.{Overflow, DivideByZero, TypeFault, ExponentRange, EmptyOperand, NotInDomain, MapConflict};
ghost use Rattle.abstract_syntax.specs.Values.{number, boolean, set_of, sequence, map_of, value_trees, pair_trees};
ghost use Rattle.value_operators.specs.Operators.{applied_one, applied_two};
ghost use Rattle.value_operators.specs.Sequences.{subsequence};

/// Numbers in all patterns of signs, and at the ends of their range.
pub fn worked_numbers()
    ensures divides { applied_two Div (number (negsuc 13)) (number (pos 3)) ≡ Ok (number (negsuc 3)) }
    ensures remains { applied_two Rem (number (negsuc 13)) (number (pos 3)) ≡ Ok (number (negsuc 1)) }
    ensures modulo { applied_two Mod (number (negsuc 13)) (number (pos 3)) ≡ Ok (number (pos 1)) }
    ensures divides_back { applied_two Div (number (pos 14)) (number (negsuc 2)) ≡ Ok (number (negsuc 3)) }
    ensures remains_back { applied_two Rem (number (pos 14)) (number (negsuc 2)) ≡ Ok (number (pos 2)) }
    ensures modulo_back { applied_two Mod (number (pos 14)) (number (negsuc 2)) ≡ Ok (number (negsuc 0)) }
    ensures divides_both { applied_two Div (number (negsuc 13)) (number (negsuc 2)) ≡ Ok (number (pos 4)) }
    ensures modulo_both { applied_two Mod (number (negsuc 13)) (number (negsuc 2)) ≡ Ok (number (negsuc 1)) }
    ensures by_zero { applied_two Mod (number (pos 1)) (number (pos 0)) ≡ Err DivideByZero }
    ensures least { applied_two Exponent (number (negsuc 1)) (number (pos 127)) ≡ Ok (number (negsuc 170141183460469231731687303715884105727)) }
    ensures beyond { applied_two Exponent (number (pos 2)) (number (pos 127)) ≡ Err Overflow }
    ensures nothing { applied_two Exponent (number (pos 0)) (number (pos 0)) ≡ Ok (number (pos 1)) }
    ensures below { applied_two Exponent (number (pos 2)) (number (negsuc 0)) ≡ Err ExponentRange }
    ensures greatest { applied_two Plus (number (pos 170141183460469231731687303715884105727)) (number (pos 1)) ≡ Err Overflow }
    ensures turned { applied_one Negative (number (negsuc 170141183460469231731687303715884105727)) ≡ Err Overflow }
    ensures kinds { applied_two Plus (boolean true) (number (pos 1)) ≡ Err TypeFault }
    ensures different { applied_two NotEqual (boolean true) (number (pos 1)) ≡ Ok (boolean true) }
{}

/// Sets, also without members.
pub fn worked_sets()
    ensures union { applied_two Union (set_of (value_trees (number (pos 1) ∷ number (pos 2) ∷ []))) (set_of (value_trees (number (pos 2) ∷ number (pos 3) ∷ []))) ≡ Ok (set_of (value_trees (number (pos 1) ∷ number (pos 2) ∷ number (pos 3) ∷ []))) }
    ensures inter { applied_two Inter (set_of (value_trees (number (pos 1) ∷ number (pos 2) ∷ []))) (set_of (value_trees (number (pos 2) ∷ number (pos 3) ∷ []))) ≡ Ok (set_of (value_trees (number (pos 2) ∷ []))) }
    ensures difference { applied_two Difference (set_of (value_trees (number (pos 1) ∷ number (pos 2) ∷ []))) (set_of (value_trees (number (pos 2) ∷ number (pos 3) ∷ []))) ≡ Ok (set_of (value_trees (number (pos 1) ∷ []))) }
    ensures proper { applied_two ProperSubset (set_of (value_trees (number (pos 1) ∷ []))) (set_of (value_trees (number (pos 1) ∷ []))) ≡ Ok (boolean false) }
    ensures subset { applied_two Subset (set_of (value_trees (number (pos 1) ∷ []))) (set_of (value_trees (number (pos 1) ∷ []))) ≡ Ok (boolean true) }
    ensures member { applied_two InSet (number (pos 2)) (set_of (value_trees (number (pos 1) ∷ number (pos 2) ∷ []))) ≡ Ok (boolean true) }
    ensures backward { applied_two Interval (number (pos 3)) (number (pos 1)) ≡ Ok (set_of (value_trees ([]))) }
    ensures forward { applied_two Interval (number (pos 3)) (number (pos 5)) ≡ Ok (set_of (value_trees (number (pos 3) ∷ number (pos 4) ∷ number (pos 5) ∷ []))) }
    ensures powers { applied_one PowerSet (set_of (value_trees (number (pos 1) ∷ number (pos 2) ∷ []))) ≡ Ok (set_of (value_trees ((set_of (value_trees ([]))) ∷ (set_of (value_trees (number (pos 1) ∷ []))) ∷ (set_of (value_trees (number (pos 2) ∷ []))) ∷ (set_of (value_trees (number (pos 1) ∷ number (pos 2) ∷ []))) ∷ []))) }
    ensures unions { applied_one DistributedUnion (set_of (value_trees ((set_of (value_trees (number (pos 2) ∷ []))) ∷ (set_of (value_trees (number (pos 1) ∷ number (pos 2) ∷ []))) ∷ []))) ≡ Ok (set_of (value_trees (number (pos 1) ∷ number (pos 2) ∷ []))) }
    ensures inters { applied_one DistributedInter (set_of (value_trees ((set_of (value_trees (number (pos 2) ∷ []))) ∷ (set_of (value_trees (number (pos 1) ∷ number (pos 2) ∷ []))) ∷ []))) ≡ Ok (set_of (value_trees (number (pos 2) ∷ []))) }
    ensures no_sets { applied_one DistributedInter (set_of (value_trees ([]))) ≡ Err EmptyOperand }
    ensures no_set { applied_one DistributedUnion (set_of (value_trees (number (pos 1) ∷ []))) ≡ Err TypeFault }
{}

/// Sequences and maps.
pub fn worked_sequences_and_maps()
    ensures joined { applied_two Concatenation (sequence (value_trees (number (pos 1) ∷ []))) (sequence (value_trees (number (pos 2) ∷ []))) ≡ Ok (sequence (value_trees (number (pos 1) ∷ number (pos 2) ∷ []))) }
    ensures no_head { applied_one Head (sequence (value_trees ([]))) ≡ Err EmptyOperand }
    ensures tail { applied_one Tail (sequence (value_trees (number (pos 1) ∷ number (pos 2) ∷ []))) ≡ Ok (sequence (value_trees (number (pos 2) ∷ []))) }
    ensures indices { applied_one Indices (sequence (value_trees (number (pos 7) ∷ number (pos 7) ∷ []))) ≡ Ok (set_of (value_trees (number (pos 1) ∷ number (pos 2) ∷ []))) }
    ensures elements { applied_one Elements (sequence (value_trees (number (pos 7) ∷ number (pos 7) ∷ []))) ≡ Ok (set_of (value_trees (number (pos 7) ∷ []))) }
    ensures looked_up { applied_two LookUp (sequence (value_trees (number (pos 7) ∷ number (pos 8) ∷ []))) (number (pos 2)) ≡ Ok (number (pos 8)) }
    ensures past { applied_two LookUp (sequence (value_trees (number (pos 7) ∷ number (pos 8) ∷ []))) (number (pos 3)) ≡ Err NotInDomain }
    ensures before { applied_two LookUp (sequence (value_trees (number (pos 7) ∷ number (pos 8) ∷ []))) (number (pos 0)) ≡ Err NotInDomain }
    ensures part { subsequence (sequence (value_trees (number (pos 7) ∷ number (pos 8) ∷ number (pos 9) ∷ []))) (number (pos 2)) (number (pos 9)) ≡ Ok (sequence (value_trees (number (pos 8) ∷ number (pos 9) ∷ []))) }
    ensures replaced { applied_two Override (sequence (value_trees (number (pos 7) ∷ number (pos 8) ∷ []))) (map_of (pair_trees ((number (pos 2), number (pos 5)) ∷ []))) ≡ Ok (sequence (value_trees (number (pos 7) ∷ number (pos 5) ∷ []))) }
    ensures no_place { applied_two Override (sequence (value_trees (number (pos 7) ∷ number (pos 8) ∷ []))) (map_of (pair_trees ((number (pos 3), number (pos 5)) ∷ []))) ≡ Err NotInDomain }
    ensures looked_up_in_map { applied_two LookUp (map_of (pair_trees ((number (pos 1), number (pos 2)) ∷ []))) (number (pos 1)) ≡ Ok (number (pos 2)) }
    ensures no_key { applied_two LookUp (map_of (pair_trees ((number (pos 1), number (pos 2)) ∷ []))) (number (pos 3)) ≡ Err NotInDomain }
    ensures overridden { applied_two Override (map_of (pair_trees ((number (pos 1), number (pos 2)) ∷ (number (pos 3), number (pos 4)) ∷ []))) (map_of (pair_trees ((number (pos 1), number (pos 5)) ∷ []))) ≡ Ok (map_of (pair_trees ((number (pos 1), number (pos 5)) ∷ (number (pos 3), number (pos 4)) ∷ []))) }
    ensures conflict { applied_one Merge (set_of (value_trees ((map_of (pair_trees ((number (pos 1), number (pos 2)) ∷ []))) ∷ (map_of (pair_trees ((number (pos 1), number (pos 3)) ∷ []))) ∷ []))) ≡ Err MapConflict }
    ensures joined_maps { applied_two MapUnion (map_of (pair_trees ((number (pos 1), number (pos 2)) ∷ []))) (map_of (pair_trees ((number (pos 0), number (pos 3)) ∷ []))) ≡ Ok (map_of (pair_trees ((number (pos 0), number (pos 3)) ∷ (number (pos 1), number (pos 2)) ∷ []))) }
    ensures inverse { applied_one Inverse (map_of (pair_trees ((number (pos 1), number (pos 4)) ∷ (number (pos 2), number (pos 3)) ∷ []))) ≡ Ok (map_of (pair_trees ((number (pos 3), number (pos 2)) ∷ (number (pos 4), number (pos 1)) ∷ []))) }
    ensures twice { applied_one Inverse (map_of (pair_trees ((number (pos 1), number (pos 4)) ∷ (number (pos 2), number (pos 4)) ∷ []))) ≡ Err MapConflict }
    ensures after { applied_two Composition (map_of (pair_trees ((number (pos 2), number (pos 3)) ∷ []))) (map_of (pair_trees ((number (pos 1), number (pos 2)) ∷ []))) ≡ Ok (map_of (pair_trees ((number (pos 1), number (pos 3)) ∷ []))) }
    ensures leads_nowhere { applied_two Composition (map_of (pair_trees ((number (pos 1), number (pos 2)) ∷ []))) (map_of (pair_trees ((number (pos 2), number (pos 3)) ∷ []))) ≡ Err NotInDomain }
    ensures kept { applied_two DomainRestriction (set_of (value_trees (number (pos 1) ∷ []))) (map_of (pair_trees ((number (pos 1), number (pos 4)) ∷ (number (pos 2), number (pos 4)) ∷ []))) ≡ Ok (map_of (pair_trees ((number (pos 1), number (pos 4)) ∷ []))) }
    ensures removed { applied_two RangeRemoval (map_of (pair_trees ((number (pos 1), number (pos 4)) ∷ (number (pos 2), number (pos 5)) ∷ []))) (set_of (value_trees (number (pos 4) ∷ []))) ≡ Ok (map_of (pair_trees ((number (pos 2), number (pos 5)) ∷ []))) }
{}
