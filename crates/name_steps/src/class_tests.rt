// Tests of the classes of values.

ghost use Rattle.std.specs.Prelude.{◌≡◌, ◌&&◌};
ghost use Rattle.std.specs.List.{list_any};
ghost use Rattle.vdm_kinds.specs.declared.name.Name.{Name as NameOf};
ghost use Rattle.abstract_syntax.specs.Classes.{is_same_name};
ghost use Rattle.spec_table.specs.Tables.{table_spec};
ghost use Rattle.node_meaning.specs.ClassTests.{both_classes, both_of, class_of, class_told, holds, holds_of_one, holds_of_two, is_base, is_base_of, only_class, share_base};
ghost use Rattle.node_meaning.specs.Envs.{Locals};
ghost use Rattle.node_meaning.specs.Fitting.{descends};
ghost use Rattle.node_meaning.specs.Needs.{Setting};
ghost use Rattle.eval_data.specs.Parts.{class_test_of};
ghost use Rattle.eval_data.specs.Steps.{code_of};

use eval_data::{ClassTest, Step};
use expr_tree::TypeNames;
use spec_table::ClassTable;
use value_steps::truth;
use vdm_kinds::Name;
use vdm_values::{Node, Value};

/// Whether the test holds of the classes of the values.
pub fn class_told<'t>(table: &ClassTable, test: ClassTest, values: Vec<Value>) -> Step<'t>
    ensures { (setting : Setting) (locals : Locals) → code_of setting locals result ≡ class_told (table_spec table.now) (class_test_of test) values.items locals }
{
    truth(holds(table, test, values.as_slice()))
}

fn holds(table: &ClassTable, test: ClassTest, values: &[Value]) -> bool
    ensures { result ≡ holds (table_spec table.now) (class_test_of test) values.now }
{
    match test {
        ClassTest::InClass(class) => is_in_class(table, class, only_class(values)),
        ClassTest::InBaseClass(class) => is_in_base_class(table, class, only_class(values)),
        ClassTest::OneClass => are_one_class(both_classes(values)),
        ClassTest::OneBaseClass => have_one_base(table, both_classes(values)),
    }
}

// ---- the classes of values

/// The class of an object. No other value has one.
fn class_of(value: &Value) -> Option<Name>
    ensures { result ≡ class_of value.now }
{
    match value.node() {
        Node::Object { number: _, class } => Some(*class),
        _ => None,
    }
}

/// The class of the one value that there is, where that is an object.
fn only_class(values: &[Value]) -> Option<Name>
    ensures { result ≡ only_class values.now }
{
    match values {
        [a] => class_of(a),
        _ => None,
    }
}

/// The classes of the two values that there are, where both are objects.
fn both_classes(values: &[Value]) -> Option<(Name, Name)>
    ensures { result ≡ both_classes values.now }
{
    match values {
        [a, b] => both_of(class_of(a), class_of(b)),
        _ => None,
    }
}

fn both_of(own: Option<Name>, other: Option<Name>) -> Option<(Name, Name)>
    ensures { result ≡ both_of own other }
{
    match (own, other) {
        (Some(own), Some(other)) => Some((own, other)),
        _ => None,
    }
}

// ---- tests of them

/// Whether the class is among the ancestors of an object's class.
fn is_in_class(table: &ClassTable, class: Name, own: Option<Name>) -> bool
    ensures { result ≡ holds_of_one (λ own. descends (table_spec table.now) own class) own }
{
    match own {
        Some(own) => descends(table, own, class),
        None => false,
    }
}

/// ... and has no superclass.
fn is_in_base_class(table: &ClassTable, class: Name, own: Option<Name>) -> bool
    ensures { result ≡ holds_of_one (is_base_of (table_spec table.now) class) own }
{
    match own {
        Some(own) => is_base_of(table, class, own),
        None => false,
    }
}

fn are_one_class(classes: Option<(Name, Name)>) -> bool
    ensures { result ≡ holds_of_two is_same_name classes }
{
    match classes {
        Some((own, other)) => own.0 == other.0,
        None => false,
    }
}

/// Whether some class without superclasses is an ancestor of both.
fn have_one_base(table: &ClassTable, classes: Option<(Name, Name)>) -> bool
    ensures { result ≡ holds_of_two (share_base (table_spec table.now)) classes }
{
    match classes {
        Some((own, other)) => share_base(table, own, other),
        None => false,
    }
}

fn share_base(table: &ClassTable, own: Name, other: Name) -> bool
    ensures { result ≡ share_base (table_spec table.now) own other }
{
    some_is_common(table, table.classes(), own, other)
}

fn some_is_common(table: &ClassTable, classes: &[Name], own: Name, other: Name) -> bool
    ensures { result ≡ list_any (λ (class : NameOf). is_base_of (table_spec table.now) class own && is_base_of (table_spec table.now) class other) classes.now }
{
    for class in classes {
        if is_common_base(table, *class, own, other) {
            return true;
        }
    }
    false
}

/// Whether the first class is among the ancestors of both others, and has no superclass.
fn is_common_base(table: &ClassTable, class: Name, own: Name, other: Name) -> bool
    ensures { result ≡ (is_base_of (table_spec table.now) class own && is_base_of (table_spec table.now) class other) }
{
    is_base_of(table, class, own) && is_base_of(table, class, other)
}

/// Whether the first class is among the ancestors of the second one, and has no superclass.
fn is_base_of(table: &ClassTable, class: Name, own: Name) -> bool
    ensures { result ≡ is_base_of (table_spec table.now) class own }
{
    is_base(table, class) && descends(table, own, class)
}

/// Whether it is a class without superclasses.
fn is_base(table: &ClassTable, class: Name) -> bool
    ensures { result ≡ is_base (table_spec table.now) class }
{
    match table.number(class) {
        Some(_) => table.class(class).superclasses.first().is_none(),
        None => false,
    }
}

/// Whether the second class is the first one or one of its ancestors.
fn descends(table: &ClassTable, class: Name, other: Name) -> bool
    ensures { result ≡ descends (table_spec table.now) class other }
{
    table.is_kind_of(class, other)
}
