// What the definitions say, in other words. Each law is the contract of a function that does nothing.

ghost use Rattle.std.specs.Prelude.{◌≡◌, ◌↔◌, ℕ, ◌<◌, ◌||◌, true, false, nat_eq, is_some, length, [], ◌∷◌, ◌++◌, Some, None, slice_get, flat_map, reverse, drop, Contains};
ghost use Rattle.std.specs.List.{AllByRecursion, IsDistinct};
ghost use Rattle.vdm_kinds.specs.declared.member.VarRef.{VarRef};
ghost use Rattle.vdm_kinds.specs.declared.name_at.NameAt.{NameAt};
ghost use Rattle.abstract_syntax.specs.Classes.{ClassTree, SpecTree, is_same_name};
ghost use Rattle.expr_tree.specs.Alternatives.{IsRanked};
ghost use Rattle.graph_cycles.specs.Graphs.{InRange, successors, leads, is_on_cycle, settles};
ghost use Rattle.class_meaning.specs.Ancestors.{firsts, ancestors, is_ancestor};
ghost use Rattle.class_meaning.specs.Classes.{class_at, class_graph, class_names, class_number};
ghost use Rattle.class_meaning.specs.Faults.{clashes, table_fault};
ghost use Rattle.class_meaning.specs.Found.{found, own_in, type_named};
ghost use Rattle.class_meaning.specs.Laws.{IsSuperclass, own_variables, is_same_variable, OneAbove, Disagree, HasOwnTypes, type_rank};
ghost use Rattle.class_meaning.specs.Members.{class_members};
ghost use Rattle.class_meaning.specs.Objects.{layout};
ghost use Rattle.class_meaning.specs.TypeGraph.{type_graph};
ghost use Rattle.class_meaning.specs.declared.ask.Ask.{Ask};
ghost use Rattle.class_meaning.specs.declared.found.Found.TheVariants.{Nothing, One, Several};

/// The ancestors of a class: itself first, and no class twice; it and what it leads to; and where no circle is above it, itself and then
/// those of its superclasses in order.
pub fn ancestors_of_classes()
    ensures first { (spec : SpecTree) (k : ℕ) → slice_get (ancestors spec k) 0 ≡ Some k }
    ensures apart { (spec : SpecTree) (k : ℕ) → IsDistinct nat_eq (ancestors spec k) }
    ensures has { (spec : SpecTree) (k a : ℕ) → is_ancestor spec k a ≡ (nat_eq k a || leads (length (class_graph spec)) (class_graph spec) k a) }
    ensures by_superclasses { (spec : SpecTree) (k : ℕ) → settles (length (class_graph spec)) (class_graph spec) k ≡ true
        → ancestors spec k ≡ firsts (k ∷ flat_map (ancestors spec) (successors (class_graph spec) k)) }
    ensures above { (spec : SpecTree) (k s : ℕ) → settles (length (class_graph spec)) (class_graph spec) k ≡ true → IsSuperclass spec k s
        → is_ancestor spec s k ≡ false }
    ensures kept { (spec : SpecTree) (k s a : ℕ) → settles (length (class_graph spec)) (class_graph spec) k ≡ true → IsSuperclass spec k s
        → is_ancestor spec s a ≡ true → is_ancestor spec k a ≡ true }
{}

/// An object has exactly the instance variables of its class's ancestors, so each of an object of a superclass; the class's own are the
/// last, and below a single superclass they stand behind those of an object of the superclass; and none stands there twice.
pub fn layouts_of_objects()
    ensures has { (spec : SpecTree) (k : ℕ) (v : VarRef) → Contains (layout spec k) v
        ↔ ((a : ℕ) × (is_ancestor spec k a ≡ true) × Contains (own_variables spec a) v) }
    ensures single { (spec : SpecTree) (k s : ℕ) → settles (length (class_graph spec)) (class_graph spec) k ≡ true
        → successors (class_graph spec) k ≡ s ∷ [] → layout spec k ≡ layout spec s ++ own_variables spec k }
    ensures kept { (spec : SpecTree) (k s : ℕ) (v : VarRef) → settles (length (class_graph spec)) (class_graph spec) k ≡ true
        → IsSuperclass spec k s → Contains (layout spec s) v → Contains (layout spec k) v }
    ensures own_last { (spec : SpecTree) (k : ℕ)
        → layout spec k ≡ flat_map (own_variables spec) (reverse (drop 1 (ancestors spec k))) ++ own_variables spec k }
    ensures apart { (spec : SpecTree) (k : ℕ) → table_fault spec ≡ None → IsDistinct is_same_variable (layout spec k) }
{}

/// What is found is an ancestor that has a definition of its own.
pub fn what_is_found()
    ensures { (spec : SpecTree) (ask : Ask) (k o : ℕ) → found spec ask k ≡ One o
        → (is_some (own_in spec ask o) ≡ true) × (is_ancestor spec k o ≡ true) }
{}

/// A class's own definition comes before all others.
pub fn own_definitions()
    ensures { (spec : SpecTree) (ask : Ask) (k : ℕ) → settles (length (class_graph spec)) (class_graph spec) k ≡ true
        → is_some (own_in spec ask k) ≡ true → found spec ask k ≡ One k }
{}

/// Without one, a class finds what its superclasses agree on: one class that some of them find and none of them disputes; nothing where
/// none of them finds anything; several where they do not agree.
pub fn inherited_definitions()
    ensures one { (spec : SpecTree) (ask : Ask) (k o : ℕ) → settles (length (class_graph spec)) (class_graph spec) k ≡ true
        → is_some (own_in spec ask k) ≡ false → (found spec ask k ≡ One o) ↔ OneAbove spec ask k o }
    ensures none { (spec : SpecTree) (ask : Ask) (k : ℕ) → settles (length (class_graph spec)) (class_graph spec) k ≡ true
        → is_some (own_in spec ask k) ≡ false
        → (found spec ask k ≡ Nothing) ↔ ((s : ℕ) → IsSuperclass spec k s → found spec ask s ≡ Nothing) }
    ensures several { (spec : SpecTree) (ask : Ask) (k : ℕ) → settles (length (class_graph spec)) (class_graph spec) k ≡ true
        → is_some (own_in spec ask k) ≡ false → (found spec ask k ≡ Several) ↔ Disagree spec ask k }
{}

/// Nothing is found where no ancestor has a definition of its own, and where the class is on a circle or below one.
pub fn nothing_is_found()
    ensures none { (spec : SpecTree) (ask : Ask) (k : ℕ) → ((a : ℕ) → is_ancestor spec k a ≡ true → is_some (own_in spec ask a) ≡ false)
        → found spec ask k ≡ Nothing }
    ensures circle { (spec : SpecTree) (ask : Ask) (k : ℕ) → settles (length (class_graph spec)) (class_graph spec) k ≡ false
        → found spec ask k ≡ Nothing }
{}

/// Where the table is not refused: no two classes have one name, each superclass is there, no two members of a class clash, no class is
/// on a circle of superclasses, and no type is its own alternative.
pub fn tables_without_a_fault()
    ensures names { (spec : SpecTree) → table_fault spec ≡ None → IsDistinct is_same_name (class_names spec) }
    ensures superclasses { (spec : SpecTree) (k : ℕ) (class : ClassTree) → table_fault spec ≡ None → class_at spec k ≡ Some class
        → AllByRecursion (λ (s : NameAt). is_some (class_number spec s.name) ≡ true) class.superclasses }
    ensures members { (spec : SpecTree) (k : ℕ) (class : ClassTree) → table_fault spec ≡ None → class_at spec k ≡ Some class
        → IsDistinct clashes (class_members class) }
    ensures classes { (spec : SpecTree) (k : ℕ) → table_fault spec ≡ None → is_on_cycle (class_graph spec) k ≡ false }
    ensures types { (spec : SpecTree) (i : ℕ) → table_fault spec ≡ None → is_on_cycle (type_graph spec) i ≡ false }
{}

/// The graphs of classes and of types lead to their own nodes alone.
pub fn graphs_in_range()
    ensures classes { (spec : SpecTree) → InRange (class_graph spec) }
    ensures types { (spec : SpecTree) → InRange (type_graph spec) }
{}

/// Where the table is not refused, each class settles, and each type has a greater number than each of its alternatives.
pub fn what_settles()
    ensures classes { (spec : SpecTree) (k : ℕ) → table_fault spec ≡ None → settles (length (class_graph spec)) (class_graph spec) k ≡ true }
    ensures types { (spec : SpecTree) (i : ℕ) → table_fault spec ≡ None → i < length (type_graph spec)
        → settles (length (type_graph spec)) (type_graph spec) i ≡ true }
    ensures ranked { (spec : SpecTree) → table_fault spec ≡ None → HasOwnTypes spec → IsRanked (type_named spec) (type_rank spec) }
{}
