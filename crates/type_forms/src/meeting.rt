// Whether some value may be of two forms.

ghost use Rattle.std.specs.Prelude.{◌≡◌, ◌↔◌, ◌&&◌, List, IsTrue, Contains};
ghost use Rattle.vdm_kinds.specs.declared.name.Name.{Name};
ghost use Rattle.form_meaning.specs.Meeting.{meets, some_meet, meets_one, alternatives_meet, classes_meet};
ghost use Rattle.type_forms.specs.Tree.{alt_of, alt_trees};

use crate::form::{Alt, Form, Node};
use crate::kinds::is_same_kind;
use expr_tree::TypeNames;
use vdm_kinds::Name;

/// Whether some value may be of both forms, once their names are opened. Their parts are not compared.
pub fn meets<N: TypeNames>(form: &Form, other: &Form, names: &N) -> bool
    ensures { (classes : List Name) → ((class : Name) → Contains classes class ↔ IsTrue (N.descends names.now class class))
        → result ≡ meets (N.descends names.now) classes form.now other.now }
{
    forms_meet(form, other, names.all_classes(), names)
}

// The same, where these are all classes.
fn forms_meet<N: TypeNames>(form: &Form, other: &Form, classes: &[Name], names: &N) -> bool
    ensures { result ≡ meets (N.descends names.now) classes.now form.now other.now }
{
    match form.node() {
        Node::Any => true,
        Node::Nothing => matches!(other.node(), Node::Any),
        Node::OneOf(alternatives) => match other.node() {
            Node::Any => true,
            Node::Nothing => false,
            Node::OneOf(others) => some_meet(
                alternatives.as_slice(),
                others.as_slice(),
                classes,
                names,
            ),
        },
    }
}

fn some_meet<N: TypeNames>(
    alternatives: &[Alt],
    others: &[Alt],
    classes: &[Name],
    names: &N,
) -> bool
    ensures { result ≡ some_meet (N.descends names.now) classes.now (alt_trees alternatives.now) (alt_trees others.now) }
{
    for alternative in alternatives {
        if meets_one(alternative, others, classes, names) {
            return true;
        }
    }
    false
}

fn meets_one<N: TypeNames>(alternative: &Alt, others: &[Alt], classes: &[Name], names: &N) -> bool
    ensures { result ≡ meets_one (N.descends names.now) classes.now (alt_of alternative.now) (alt_trees others.now) }
{
    for other in others {
        if alternatives_meet(alternative, other, classes, names) {
            return true;
        }
    }
    false
}

fn alternatives_meet<N: TypeNames>(
    alternative: &Alt,
    other: &Alt,
    classes: &[Name],
    names: &N,
) -> bool
    ensures { result ≡ alternatives_meet (N.descends names.now) classes.now (alt_of alternative.now) (alt_of other.now) }
{
    match (alternative, other) {
        (Alt::Object(a), Alt::Object(b)) => classes_meet(*a, *b, classes, names),
        _ => is_same_kind(alternative, other),
    }
}

// Whether some class has both among its ancestors.
fn classes_meet<N: TypeNames>(a: Name, b: Name, classes: &[Name], names: &N) -> bool
    ensures { result ≡ classes_meet (N.descends names.now) classes.now a b }
{
    for class in classes {
        if is_of_both(*class, a, b, names) {
            return true;
        }
    }
    false
}

fn is_of_both<N: TypeNames>(class: Name, a: Name, b: Name, names: &N) -> bool
    ensures { result ≡ (N.descends names.now class a && N.descends names.now class b) }
{
    names.is_kind_of(class, a) && names.is_kind_of(class, b)
}
