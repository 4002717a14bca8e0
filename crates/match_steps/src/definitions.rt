// Definitions, one after another.

ghost use Rattle.std.specs.Prelude.{◌≡◌, map, None, option_map};
ghost use Rattle.abstract_syntax.specs.Expressions.{no_defined, one_defined};
ghost use Rattle.type_tree.specs.TypeView.{type_view};
ghost use Rattle.expr_tree.specs.View.{boxed_view, pattern_view, defined_view, defined_trees};
ghost use Rattle.node_meaning.specs.Envs.{Locals};
ghost use Rattle.node_meaning.specs.Expressions.{defined};
ghost use Rattle.node_meaning.specs.Fitting.{typed_maybe};
ghost use Rattle.node_meaning.specs.Needs.{Setting};
ghost use Rattle.node_meaning.specs.Tasks.{evaluated};
ghost use Rattle.eval_data.specs.declared.matching.Met.TheVariants.{Definition};
ghost use Rattle.eval_data.specs.Parts.{here_of, maybe_type};
ghost use Rattle.eval_data.specs.Steps.{code_of, meets_with};

use crate::parts::{part, within};
use eval_data::{Frame, Here, MetDefinition, Step, Use};
use expr_tree::{Defined, Expr, Pattern, TypeExpr};
use vdm_kinds::Place;

/// The next definition, or the expression for which all are bound.
pub(crate) fn defined<'t>(
    here: Here<'t>,
    count: usize,
    definitions: &'t [Defined],
    body: &'t Box<Expr>,
    place: Place,
) -> Step<'t>
    ensures { (setting : Setting) (locals : Locals) → code_of setting locals result ≡ defined setting.spec (here_of here.entry) place count (defined_trees (map defined_view definitions.now)) (boxed_view body.now) locals }
{
    match definitions.split_first() {
        None => within(here, count, body),
        Some((definition, more)) => first_defined(here, count, definition, more, body, place),
    }
}

// With its type, where one is given.
fn first_defined<'t>(
    here: Here<'t>,
    count: usize,
    definition: &'t Defined,
    more: &'t [Defined],
    body: &'t Box<Expr>,
    place: Place,
) -> Step<'t>
    ensures { (setting : Setting) (locals : Locals) → code_of setting locals result ≡ defined setting.spec (here_of here.entry) place count (one_defined (pattern_view definition.now.pattern.value) (option_map type_view definition.now.declared) (boxed_view definition.now.value) (defined_trees (map defined_view more.now))) (boxed_view body.now) locals }
{
    let pattern = &definition.pattern;
    let declared = declared_type(&definition.declared);
    let met = MetDefinition {
        pattern,
        more,
        body,
        count,
    };
    defining(here, &definition.value, declared, met, place)
}

fn declared_type(declared: &Option<TypeExpr>) -> Option<&TypeExpr>
    ensures { maybe_type result ≡ option_map type_view declared.now }
{
    declared.as_ref()
}

/// A definition with none behind it.
pub(crate) fn only_defined<'t>(
    here: Here<'t>,
    count: usize,
    pattern: &'t Box<Pattern>,
    value: &'t Box<Expr>,
    body: &'t Box<Expr>,
    place: Place,
) -> Step<'t>
    ensures { (setting : Setting) (locals : Locals) → code_of setting locals result ≡ defined setting.spec (here_of here.entry) place count (one_defined (pattern_view pattern.now.value) None (boxed_view value.now) no_defined) (boxed_view body.now) locals }
{
    let more: &[Defined] = &[];
    let met = MetDefinition {
        pattern,
        more,
        body,
        count,
    };
    defining(here, value, None, met, place)
}

/// The value that a definition gives, and then its pattern meets it, where it fits the type.
pub(crate) fn defining<'t>(
    here: Here<'t>,
    value: &'t Box<Expr>,
    declared: Option<&'t TypeExpr>,
    definition: MetDefinition<'t>,
    place: Place,
) -> Step<'t>
    ensures { (setting : Setting) (locals : Locals) → code_of setting locals result ≡ evaluated (here_of here.entry) locals (boxed_view value.now) place (typed_maybe setting.spec (here_of here.entry).nest (here_of here.entry).scope (maybe_type declared.entry) place (meets_with setting.spec (Definition here.entry definition.entry) place)) }
{
    let frame = Frame::With(Use::Defined(here, declared, definition), place);
    part(here, value, frame)
}
