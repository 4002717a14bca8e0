// Laws of sets.

ghost use Rattle.std.specs.Prelude.{◌≡◌, ◌↔◌, ◌≤ℤ◌, ℤ, List, Contains, IfOk};
ghost use Rattle.abstract_syntax.specs.Values.{ValueTree, number};
ghost use Rattle.value_operators.specs.Sets.{members_of, interval, union_of_all, inter_of_all, power_set};
ghost use Rattle.operator_laws.specs.Shares.{IsSetWithin, HasSome};

/// The union of a set of sets has what one of them has, and what all have is in the intersection.
pub fn sets_of_sets_have_their_members()
    ensures union { (sets : List (List ValueTree)) (v : ValueTree) → IfOk (union_of_all sets) (λ s. Contains (members_of s) v ↔ HasSome sets v) }
    ensures inter { (sets : List (List ValueTree)) (v : ValueTree) → IfOk (inter_of_all sets) (λ s. Contains (members_of s) v ↔ ((vs : List ValueTree) → Contains sets vs → Contains vs v)) }
{}

/// A power set has exactly the canonical sets whose members are all in the set.
pub fn power_sets_have_the_subsets()
    ensures { (vs : List ValueTree) (s : ValueTree) → Contains (members_of (power_set vs)) s ↔ IsSetWithin vs s }
{}

/// A range has exactly the numbers from the one to the other.
pub fn ranges_have_the_numbers()
    ensures { (m n : ℤ) (v : ValueTree) → Contains (members_of (interval m n)) v ↔ ((k : ℤ) × (v ≡ number k) × (m ≤ℤ k) × (k ≤ℤ n)) }
{}
