// What the definitions say, in other words.

ghost use Rattle.std.specs.Prelude.{◌≡◌, ◌↔◌, List, [], Contains, Option, Some, None};
ghost use Rattle.abstract_syntax.specs.Expressions.{PatternTree};
ghost use Rattle.abstract_syntax.specs.Values.{ValueTree};
ghost use Rattle.pattern_meaning.specs.Bindings.{Binding, first_binding, with_way, value_in};
ghost use Rattle.pattern_meaning.specs.First.{IsFirst};
ghost use Rattle.pattern_meaning.specs.Fits.{Fits};
ghost use Rattle.vdm_kinds.specs.declared.name.Name.{Name};
ghost use Rattle.pattern_meaning.specs.RecordTypes.{RecordType};
ghost use Rattle.pattern_meaning.specs.Ways.{Way, ways};
ghost use Rattle.vdm_kinds.specs.declared.name_at.TypeName.{TypeName};

/// The ways that are tried are those that fit: no other, and each of them.
pub fn what_is_tried_fits()
    ensures { (types : TypeName → Option RecordType) (p : PatternTree) (given : List ValueTree) (v : ValueTree) (w : Way) → Contains (ways types p given v) w ↔ Fits types p given v w }
{}

/// The first binding is what the first way comes to that comes to a binding, and there is none exactly where no way that fits comes to
/// one.
pub fn the_first_is_taken()
    ensures first { (types : TypeName → Option RecordType) (p : PatternTree) (given : List ValueTree) (v : ValueTree) (b : Binding) → first_binding types p given v ≡ Some b → IsFirst (ways types p given v) b }
    ensures none { (types : TypeName → Option RecordType) (p : PatternTree) (given : List ValueTree) (v : ValueTree) → first_binding types p given v ≡ None → (w : Way) → Fits types p given v w → with_way [] w ≡ None }
{}

/// In what a way comes to, each name of the way has the value that it stands for there.
pub fn names_have_their_values()
    ensures { (w : Way) (b : Binding) → with_way [] w ≡ Some b → (p : Name × ValueTree) → Contains w p → value_in b p.0 ≡ Some p.1 }
{}
