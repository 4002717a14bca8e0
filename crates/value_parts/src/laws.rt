// Where the objects in values come from.

ghost use Rattle.std.specs.Prelude.{◌↔◌, List, Option, IfOk, IfSome};
ghost use Rattle.std.specs.List.{AllByRecursion as Each};
ghost use Rattle.vdm_kinds.specs.declared.name.Name.{Name};
ghost use Rattle.vdm_kinds.specs.declared.name_at.TypeName.{TypeName};
ghost use Rattle.vdm_kinds.specs.declared.operator.Operator.{Operator};
ghost use Rattle.abstract_syntax.specs.Expressions.{PatternTree};
ghost use Rattle.abstract_syntax.specs.Literals.{LiteralTree};
ghost use Rattle.abstract_syntax.specs.Values.{ValueTree, token, tuple, record_of, sequence, value_trees, pair_trees};
ghost use Rattle.abstract_syntax.specs.ValueSets.{Entry, set_value, map_value};
ghost use Rattle.value_operators.specs.Outcomes.{sized};
ghost use Rattle.value_operators.specs.Maps.{joined};
ghost use Rattle.value_operators.specs.Operators.{applied_one, applied_two};
ghost use Rattle.value_operators.specs.Sequences.{subsequence};
ghost use Rattle.pattern_meaning.specs.RecordTypes.{RecordType};
ghost use Rattle.pattern_meaning.specs.Ways.{literal_value};
ghost use Rattle.pattern_meaning.specs.Bindings.{first_binding};
ghost use Rattle.pattern_meaning.specs.Lists.{binding_of_list};
ghost use Rattle.value_parts.specs.Objects.{EachObject, EachObjectIn, EachObjectInPairs, EachObjectOnBoth};
ghost use Rattle.value_parts.specs.BoundObjects.{EachObjectBound};

use crate::object_property::ObjectProperty;

/// What an operator gives has no object but those of its operands; a subsequence has none but those of its sequence.
pub fn operators_invent_no_objects<T: ObjectProperty>()
    ensures one { (operator : Operator) (a : ValueTree) → EachObject T.holds a → IfOk (applied_one operator a) (EachObject T.holds) }
    ensures two { (operator : Operator) (a b : ValueTree) → EachObject T.holds a → EachObject T.holds b → IfOk (applied_two operator a b) (EachObject T.holds) }
    ensures subsequence { (s a b : ValueTree) → EachObject T.holds s → IfOk (subsequence s a b) (EachObject T.holds) }
{}

/// The objects in a list of values are those in each, and a value that is made of a list has no other. A literal has none.
pub fn values_have_the_objects_of_their_parts<T: ObjectProperty>()
    ensures listed { (vs : List ValueTree) → EachObjectIn T.holds (value_trees vs) ↔ Each (EachObject T.holds) vs }
    ensures listed_pairs { (ps : List Entry) → EachObjectInPairs T.holds (pair_trees ps) ↔ Each (EachObjectOnBoth T.holds) ps }
    ensures set { (vs : List ValueTree) → Each (EachObject T.holds) vs → EachObject T.holds (set_value vs) }
    ensures map { (ps : List Entry) → Each (EachObjectOnBoth T.holds) ps → EachObject T.holds (map_value ps) }
    ensures sequence { (vs : List ValueTree) → Each (EachObject T.holds) vs → EachObject T.holds (sequence (value_trees vs)) }
    ensures tuple { (vs : List ValueTree) → Each (EachObject T.holds) vs → EachObject T.holds (tuple (value_trees vs)) }
    ensures record_of { (class name : Name) (vs : List ValueTree) → Each (EachObject T.holds) vs → EachObject T.holds (record_of class name (value_trees vs)) }
    ensures token { (v : ValueTree) → EachObject T.holds v → EachObject T.holds (token v) }
    ensures sized { (v : ValueTree) → EachObject T.holds v → IfOk (sized v) (EachObject T.holds) }
    ensures joined { (ps : List Entry) → Each (EachObjectOnBoth T.holds) ps → IfOk (joined ps) (EachObject T.holds) }
    ensures literal { (literal : LiteralTree) → EachObject T.holds (literal_value literal) }
{}

/// What names stand for where patterns match values has no object but those of the values. The values of expressions in brackets
/// are only compared.
pub fn bindings_invent_no_objects<T: ObjectProperty>()
    ensures one { (types : TypeName → Option RecordType) (p : PatternTree) (given : List ValueTree) (v : ValueTree) → EachObject T.holds v → IfSome (first_binding types p given v) (EachObjectBound T.holds) }
    ensures list { (types : TypeName → Option RecordType) (ps : List PatternTree) (given vs : List ValueTree) → Each (EachObject T.holds) vs → IfSome (binding_of_list types ps given vs) (EachObjectBound T.holds) }
{}
