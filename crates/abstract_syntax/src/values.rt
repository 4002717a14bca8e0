// The laws of values: a tree holds its lists without loss.

ghost use Rattle.std.specs.Prelude.{◌≡◌, List, IsTrue, ◌↔◌};
ghost use Rattle.abstract_syntax.specs.Values.{ValueTree, ValueTrees, PairTrees, value_trees, value_list, pair_trees, pair_list};
ghost use Rattle.abstract_syntax.specs.ValueCode.{value_code};
ghost use Rattle.abstract_syntax.specs.SameBy.{same_by};

/// A list that is put into a tree comes out as it was.
pub fn lists_and_pairs_are_kept()
    ensures values { (vs : List ValueTree) → value_list (value_trees vs) ≡ vs }
    ensures pairs { (ps : List (ValueTree × ValueTree)) → pair_list (pair_trees ps) ≡ ps }
{}

/// Each part of a tree that holds values is that of exactly one list.
pub fn parts_are_kept()
    ensures values { (vs : ValueTrees) → value_trees (value_list vs) ≡ vs }
    ensures pairs { (ps : PairTrees) → pair_trees (pair_list ps) ≡ ps }
{}

/// The test by which values are compared holds of a tree and itself, and of no two.
pub fn the_test_is_equality()
    ensures { (v w : ValueTree) → IsTrue (same_by value_code v w) ↔ v ≡ w }
{}
