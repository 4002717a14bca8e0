// The laws of the operators.

ghost use Rattle.std.specs.Prelude.{◌≡◌, ◌↔◌, ◌⊎◌, IsTrue, List, Contains};
ghost use Rattle.abstract_syntax.specs.Values.{ValueTree};
ghost use Rattle.value_operators.specs.Members.{has};
ghost use Rattle.value_operators.specs.Sets.{members_of, union, inter, difference, is_subset};

/// The test whether a value is a member is true exactly of the members.
pub fn membership_is_decided()
    ensures { (vs : List ValueTree) (v : ValueTree) → IsTrue (has vs v) ↔ Contains vs v }
{}

/// A union has the members of both, an intersection those that both have, a difference those of the first that the second lacks;
/// a set is a subset where the other has each of its members. No other strictly rising list has the same members
/// (`sets_are_told_by_their_members`).
pub fn sets_have_their_members()
    ensures union { (vs ws : List ValueTree) (v : ValueTree) → Contains (members_of (union vs ws)) v ↔ Contains vs v ⊎ Contains ws v }
    ensures inter { (vs ws : List ValueTree) (v : ValueTree) → Contains (members_of (inter vs ws)) v ↔ Contains vs v × Contains ws v }
    ensures difference { (vs ws : List ValueTree) (v : ValueTree) → Contains (members_of (difference vs ws)) v ↔ Contains vs v × (Contains ws v → ⊥) }
    ensures subset { (vs ws : List ValueTree) → IsTrue (is_subset vs ws) ↔ ((v : ValueTree) → Contains vs v → Contains ws v) }
{}
