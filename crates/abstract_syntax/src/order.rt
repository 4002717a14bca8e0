// The laws of the order of values.

ghost use Rattle.std.specs.Prelude.{◌≡◌, ◌↔◌};
ghost use Rattle.std.specs.Cmp.{IsTotalOrder};
ghost use Rattle.std.specs.Ordering.{ordering_reverse};
ghost use Rattle.std.specs.declared.cmp.Ordering.TheVariants.{Less, Equal};
ghost use Rattle.abstract_syntax.specs.Values.{ValueTree};
ghost use Rattle.abstract_syntax.specs.ValueOrder.{value_order};

/// The order of values is a total order, and tells any two values apart.
pub fn order_is_total()
    ensures itself { (v : ValueTree) → value_order v v ≡ Equal }
    ensures turns { (v w : ValueTree) → value_order v w ≡ ordering_reverse (value_order w v) }
    ensures chains { (u v w : ValueTree) → value_order u v ≡ Less → value_order v w ≡ Less → value_order u w ≡ Less }
    ensures total { IsTotalOrder value_order }
    ensures apart { (v w : ValueTree) → value_order v w ≡ Equal ↔ v ≡ w }
{}
