// The form of a type, as a part: its names stay names.

ghost use Rattle.std.specs.Prelude.{◌≡◌, IfOk};
ghost use Rattle.vdm_kinds.specs.declared.name.Name.{Name};
ghost use Rattle.form_meaning.specs.Forms.{any_form, no_form, one_of, no_alts, one_alt, followed_by, only, joined};
ghost use Rattle.form_meaning.specs.Types.{basic_alt, unfound_form, name_form, with_type, part_form};
ghost use Rattle.type_tree.specs.TypeView.{type_view};
ghost use Rattle.type_forms.specs.Tree.{alt_of, alt_trees};

use crate::form::{Alt, Form, Node, owned};
use crate::joining::joined;
use crate::kinds::is_known;
use expr_tree::TypeNames;
use std::alloc::Global;
use std::rc::Rc;
use type_tree::TypeExpr;
use vdm_kinds::{BasicType, Name, OutOfMemory, TypeName};

/// The form of a type that is written in the class `scope`, as a part.
pub fn part_form<N: TypeNames>(
    alloc: Global,
    scope: Name,
    declared: &TypeExpr,
    names: &N,
) -> Result<Form, OutOfMemory>
    ensures { IfOk result (λ f. f ≡ part_form (N.found names.now) (λ (class : Name). N.descends names.now class class) scope (type_view declared.now)) }
{
    with_type(alloc, scope, declared, Form::nothing(), names)
}

// What is known, and what the type takes. It recurses once a level.
fn with_type<N: TypeNames>(
    alloc: Global,
    scope: Name,
    declared: &TypeExpr,
    known: Form,
    names: &N,
) -> Result<Form, OutOfMemory>
    ensures { IfOk result (λ f. f ≡ with_type (N.found names.now) (λ (class : Name). N.descends names.now class class) scope known (type_view declared.now)) }
{
    match declared {
        TypeExpr::Basic(basic, _) => with_alt(alloc, known, basic_alt(*basic)),
        TypeExpr::Quote(name, _) => with_alt(alloc, known, Alt::Quote(*name)),
        TypeExpr::Set(element, _) => {
            let element = with_type(alloc, scope, element, Form::nothing(), names)?;
            with_alt(alloc, known, Alt::Set(element))
        }
        TypeExpr::Seq(item, _) | TypeExpr::Seq1(item, _) => {
            let item = with_type(alloc, scope, item, Form::nothing(), names)?;
            with_alt(alloc, known, Alt::Seq(item))
        }
        TypeExpr::Map(key, value, _) | TypeExpr::InMap(key, value, _) => {
            let key = with_type(alloc, scope, key, Form::nothing(), names)?;
            let value = with_type(alloc, scope, value, Form::nothing(), names)?;
            with_alt(alloc, known, Alt::Map(key, value))
        }
        TypeExpr::Optional(inner, _) => {
            let known = with_alt(alloc, known, Alt::Nil)?;
            with_type(alloc, scope, inner, known, names)
        }
        TypeExpr::Bracketed(inner, _) => with_type(alloc, scope, inner, known, names),
        TypeExpr::Named(name, _) => with_name(alloc, scope, *name, known, names),
        TypeExpr::Product(factors, _) => {
            let mut forms = Vec::with_capacity(alloc, factors.len())?;
            for factor in factors {
                forms.push(with_type(alloc, scope, factor, Form::nothing(), names)?)?;
            }
            with_alt(alloc, known, Alt::Tuple(forms))
        }
        TypeExpr::Union(alternatives, _) => {
            let mut known = known;
            for alternative in alternatives {
                known = with_type(alloc, scope, alternative, known, names)?;
            }
            Ok(known)
        }
    }
}

// What is known, and the values of a kind.
pub(crate) fn with_alt(alloc: Global, known: Form, alt: Alt) -> Result<Form, OutOfMemory>
    ensures { IfOk result (λ f. f ≡ joined known (only (alt_of alt))) }
{
    match known.into_node() {
        Node::Any => Ok(Form::any()),
        Node::Nothing => Form::only(alloc, alt),
        Node::OneOf(alternatives) => with_one(alloc, alternatives, alt),
    }
}

fn with_one(alloc: Global, alternatives: Rc<Vec<Alt>>, alt: Alt) -> Result<Form, OutOfMemory>
    ensures { IfOk result (λ f. f ≡ joined (one_of (alt_trees alternatives.value.items)) (only (alt_of alt))) }
{
    if is_known(&alt, alternatives.as_slice()) {
        with_known(alloc, alternatives, alt)
    } else {
        with_new(alloc, alternatives, alt)
    }
}

// Where one of the kind is known, only its parts may say more.
fn with_known(alloc: Global, alternatives: Rc<Vec<Alt>>, alt: Alt) -> Result<Form, OutOfMemory>
    ensures { IfOk result (λ f. f ≡ joined (one_of (alt_trees alternatives.value.items)) (only (alt_of alt))) }
{
    let known = Form::new(Node::OneOf(alternatives));
    let other = Form::only(alloc, alt)?;
    joined(alloc, known, &other)
}

// Where none of the kind is known, it is put behind.
fn with_new(alloc: Global, alternatives: Rc<Vec<Alt>>, alt: Alt) -> Result<Form, OutOfMemory>
    ensures { IfOk result (λ f. f ≡ one_of (followed_by (alt_trees alternatives.value.items) (one_alt (alt_of alt) no_alts))) }
{
    let mut own = owned(alloc, alternatives)?;
    own.push(alt)?;
    Form::one_of(alloc, own)
}

// What is known, and any value.
fn with_any(known: Form) -> Form
    ensures { result ≡ joined known any_form }
{
    let _known = known;
    Form::any()
}

fn basic_alt(basic: BasicType) -> Alt
    ensures { alt_of result ≡ basic_alt basic }
{
    match basic {
        BasicType::Bool => Alt::Bool,
        BasicType::Nat | BasicType::Nat1 | BasicType::Int => Alt::Number,
        BasicType::Char => Alt::Character,
        BasicType::Token => Alt::Token,
    }
}

// What is known, and what a name stands for, as a part.
fn with_name<N: TypeNames>(
    alloc: Global,
    scope: Name,
    type_name: TypeName,
    known: Form,
    names: &N,
) -> Result<Form, OutOfMemory>
    ensures { IfOk result (λ f. f ≡ joined known (name_form (N.found names.now) (λ (class : Name). N.descends names.now class class) scope type_name)) }
{
    match names.type_def(scope, type_name.class, type_name.name) {
        Some(definition) => with_alt(
            alloc,
            known,
            Alt::Named {
                class: definition.class,
                name: definition.name,
            },
        ),
        None => with_unfound(alloc, type_name, known, names),
    }
}

// What is known, and what a name stands for that is no type's.
fn with_unfound<N: TypeNames>(
    alloc: Global,
    type_name: TypeName,
    known: Form,
    names: &N,
) -> Result<Form, OutOfMemory>
    ensures { IfOk result (λ f. f ≡ joined known (unfound_form (N.found names.now) (λ (class : Name). N.descends names.now class class) type_name type_name.class)) }
{
    if type_name.class.is_none() && names.is_kind_of(type_name.name, type_name.name) {
        with_alt(alloc, known, Alt::Object(type_name.name))
    } else {
        Ok(with_any(known))
    }
}
