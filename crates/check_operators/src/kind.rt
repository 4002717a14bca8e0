// Kinds of values that operands are wanted of.

ghost use Rattle.std.specs.Prelude.{◌≡◌, IfOk};
ghost use Rattle.class_checks.specs.TypeNames.{descends, meets};
ghost use Rattle.class_meaning.specs.Classes.{class_names};
ghost use Rattle.form_meaning.specs.Forms.{no_form, one_of};
ghost use Rattle.form_meaning.specs.Meeting.{some_meet, meets_one};
ghost use Rattle.type_forms.specs.Tree.{alt_of, alt_trees};
ghost use Rattle.check_scopes.specs.Told.{spec_in};
ghost use Rattle.check_operators.specs.Kinds.{form_of_kind, alts_of_kind};

use check_scopes::Setting;
use std::alloc::Global;
use type_forms::{Alt, Form, Node};
use vdm_kinds::OutOfMemory;

/// A kind of values, whatever their parts.
#[derive(Clone, Copy, Debug, PartialEq, Eq)]
pub enum Kind {
    /// Any value.
    Any,
    Truth,
    Number,
    Set,
    Sequence,
    Map,
    SequenceOrMap,
}

impl Kind {
    /// The form of the values of this kind.
    pub fn form(self, alloc: Global) -> Result<Form, OutOfMemory>
        ensures { IfOk result (λ f. f ≡ form_of_kind self) }
    {
        match self {
            Kind::Any => Ok(Form::any()),
            Kind::Truth => Form::only(alloc, Alt::Bool),
            Kind::Number => Form::only(alloc, Alt::Number),
            Kind::Set => Form::only(alloc, Alt::Set(Form::any())),
            Kind::Sequence => Form::only(alloc, Alt::Seq(Form::any())),
            Kind::Map => Form::only(alloc, Alt::Map(Form::any(), Form::any())),
            Kind::SequenceOrMap => sequence_or_map(alloc),
        }
    }
}

fn sequence_or_map(alloc: Global) -> Result<Form, OutOfMemory>
    ensures { IfOk result (λ f. f ≡ form_of_kind Kind.SequenceOrMap) }
{
    let mut alternatives = Vec::with_capacity(alloc, 2)?;
    alternatives.push(Alt::Seq(Form::any()))?;
    alternatives.push(Alt::Map(Form::any(), Form::any()))?;
    Form::one_of(alloc, alternatives)
}

/// Whether some value of a form may be of a kind.
pub fn is_like(setting: Setting<'_>, form: &Form, kind: Kind) -> bool
    ensures { result ≡ meets (spec_in setting.entry) form.now (form_of_kind kind) }
{
    match form.node() {
        Node::Any => true,
        Node::Nothing => is_any(setting, kind),
        Node::OneOf(alternatives) => are_like(setting, alternatives.as_slice(), kind),
    }
}

fn is_any(_setting: Setting<'_>, kind: Kind) -> bool
    ensures { result ≡ meets (spec_in _setting.entry) no_form (form_of_kind kind) }
{
    match kind {
        Kind::Any => true,
        _ => false,
    }
}

fn are_like(setting: Setting<'_>, alternatives: &[Alt], kind: Kind) -> bool
    ensures { result ≡ meets (spec_in setting.entry) (one_of (alt_trees alternatives.now)) (form_of_kind kind) }
{
    if is_any(setting, kind) {
        true
    } else {
        some_like(setting, alternatives, kind)
    }
}

fn some_like(setting: Setting<'_>, alternatives: &[Alt], kind: Kind) -> bool
    ensures { result ≡ some_meet (descends (spec_in setting.entry)) (class_names (spec_in setting.entry)) (alt_trees alternatives.now) (alts_of_kind kind) }
{
    for alternative in alternatives {
        if alt_is_like(setting, alternative, kind) {
            return true;
        }
    }
    false
}

fn alt_is_like(_setting: Setting<'_>, alternative: &Alt, kind: Kind) -> bool
    ensures { result ≡ meets_one (descends (spec_in _setting.entry)) (class_names (spec_in _setting.entry)) (alt_of alternative.now) (alts_of_kind kind) }
{
    match (kind, alternative) {
        (Kind::Truth, Alt::Bool) => true,
        (Kind::Number, Alt::Number) => true,
        (Kind::Set, Alt::Set(_)) => true,
        (Kind::Sequence, Alt::Seq(_)) => true,
        (Kind::Map, Alt::Map(_, _)) => true,
        (Kind::SequenceOrMap, Alt::Seq(_)) => true,
        (Kind::SequenceOrMap, Alt::Map(_, _)) => true,
        _ => false,
    }
}
