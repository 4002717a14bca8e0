// Names opened: what a form stands for.

ghost use Rattle.std.specs.Prelude.{◌≡◌, Bool, IfOk};
ghost use Rattle.vdm_kinds.specs.declared.name.Name.{Name};
ghost use Rattle.abstract_syntax.specs.Classes.{TypeDefTree};
ghost use Rattle.expr_tree.specs.Alternatives.{Finder};
ghost use Rattle.expr_tree.specs.TypeDefView.{type_def_view, type_body_view};
ghost use Rattle.type_tree.specs.TypeView.{type_view};
ghost use Rattle.form_meaning.specs.Forms.{FormTree, no_alts, followed_by};
ghost use Rattle.form_meaning.specs.Types.{alts_opened, alt_opened, opened_by, body_opened, definition_form, opened, form_of};
ghost use Rattle.type_forms.specs.Again.{FindsAgain};
ghost use Rattle.type_forms.specs.Pending.{turned, opened_by_all, opened_at_last};
ghost use Rattle.type_forms.specs.Tree.{alt_of, alt_trees};

use crate::form::{Alt, Form, Node, owned};
use crate::typing::{part_form, with_alt};
use expr_tree::{TypeBody, TypeDef, TypeNames};
use std::alloc::Global;
use type_tree::TypeExpr;
use vdm_kinds::{Name, OutOfMemory};

/// What is known so far, and the alternatives that are still to be opened, the next one last.
#[derive(Drop)]
pub(crate) struct Opening {
    pub(crate) known: Form,
    pub(crate) pending: Vec<Alt>,
}

/// What a form stands for. Nothing is said of it where a definition is not found again by its own class and name.
pub fn opened<N: TypeNames>(alloc: Global, form: &Form, names: &N) -> Result<Form, OutOfMemory>
    ensures { FindsAgain (N.found names.now)
        → IfOk result (λ f. f ≡ opened (N.found names.now) (λ (class : Name). N.descends names.now class class) (N.rank names.now) form.now) }
{
    all_opened(alloc, form.copy()?, names)
}

/// The form of a type that is written in the class `scope`. Nothing is said of it where a definition is not found again by its
/// own class and name.
pub fn form_of<N: TypeNames>(
    alloc: Global,
    scope: Name,
    declared: &TypeExpr,
    names: &N,
) -> Result<Form, OutOfMemory>
    ensures { FindsAgain (N.found names.now)
        → IfOk result (λ f. f ≡ form_of (N.found names.now) (λ (class : Name). N.descends names.now class class) (N.rank names.now) scope (type_view declared.now)) }
{
    let form = part_form(alloc, scope, declared, names)?;
    all_opened(alloc, form, names)
}

fn all_opened<N: TypeNames>(alloc: Global, form: Form, names: &N) -> Result<Form, OutOfMemory>
    ensures { FindsAgain (N.found names.now)
        → IfOk result (λ f. f ≡ opened (N.found names.now) (λ (class : Name). N.descends names.now class class) (N.rank names.now) form) }
{
    let nothing = Opening {
        known: Form::nothing(),
        pending: Vec::new(alloc),
    };
    let opening = with_form(alloc, nothing, form)?;
    at_last(alloc, opening, names)
}

// What is known once all alternatives are opened. Ranks bound the steps, and no memory would hold as many as are counted.
fn at_last<N: TypeNames>(alloc: Global, opening: Opening, names: &N) -> Result<Form, OutOfMemory>
    ensures { FindsAgain (N.found names.now)
        → IfOk result (λ f. f ≡ opened_at_last (N.found names.now) (λ (class : Name). N.descends names.now class class) (N.rank names.now) opening) }
{
    let mut opening = opening;
    for step in 0..u64::MAX {
        let Some(alternative) = opening.pending.pop() else {
            return Ok(opening.known);
        };
        opening = with_alternative(alloc, opening, alternative, names)?;
    }
    Err(OutOfMemory)
}

// The next alternative opened.
fn with_alternative<N: TypeNames>(
    alloc: Global,
    opening: Opening,
    alternative: Alt,
    names: &N,
) -> Result<Opening, OutOfMemory>
    ensures { FindsAgain (N.found names.now)
        → IfOk result (λ next. opened_at_last (N.found names.now) (λ (class : Name). N.descends names.now class class) (N.rank names.now) next
        ≡ alts_opened (N.found names.now) (λ (class : Name). N.descends names.now class class)
        (definition_form (N.found names.now) (λ (class : Name). N.descends names.now class class) (N.rank names.now))
        (alt_opened (N.found names.now) (λ (class : Name). N.descends names.now class class)
        (definition_form (N.found names.now) (λ (class : Name). N.descends names.now class class) (N.rank names.now))
        opening.known (alt_of alternative))
        (turned opening.pending.items no_alts)) }
{
    match alternative {
        Alt::Named { class, name } => match names.type_def(class, None, name) {
            Some(definition) => with_definition(alloc, opening, definition, names),
            None => Ok(Opening {
                known: Form::any(),
                pending: opening.pending,
            }),
        },
        other => Ok(Opening {
            known: with_alt(alloc, opening.known, other)?,
            pending: opening.pending,
        }),
    }
}

// What a definition takes, as what its body stands for.
fn with_definition<N: TypeNames>(
    alloc: Global,
    opening: Opening,
    definition: &TypeDef,
    names: &N,
) -> Result<Opening, OutOfMemory>
    ensures { (adds : FormTree → TypeDefTree → FormTree)
        → IfOk result (λ next. opened_by_all (N.found names.now) (λ (class : Name). N.descends names.now class class) adds next
        ≡ alts_opened (N.found names.now) (λ (class : Name). N.descends names.now class class) adds
        (body_opened (N.found names.now) (λ (class : Name). N.descends names.now class class) adds opening.known
        (type_def_view definition.now) (type_body_view definition.now.body))
        (turned opening.pending.items no_alts)) }
{
    match &definition.body {
        TypeBody::Fields(_) => {
            let record = Alt::Record {
                class: definition.class,
                name: definition.name,
            };
            Ok(Opening {
                known: with_alt(alloc, opening.known, record)?,
                pending: opening.pending,
            })
        }
        TypeBody::Same(declared) => {
            let form = part_form(alloc, definition.class, declared, names)?;
            with_form(alloc, opening, form)
        }
    }
}

// A form's alternatives are the next.
fn with_form(alloc: Global, opening: Opening, form: Form) -> Result<Opening, OutOfMemory>
    ensures { (find : Finder) (is_class : Name → Bool) (adds : FormTree → TypeDefTree → FormTree)
        → IfOk result (λ next. opened_by_all find is_class adds next
        ≡ alts_opened find is_class adds (opened_by find is_class adds opening.known form) (turned opening.pending.items no_alts)) }
{
    match form.into_node() {
        Node::Any => Ok(Opening {
            known: Form::any(),
            pending: opening.pending,
        }),
        Node::Nothing => Ok(opening),
        Node::OneOf(alternatives) => {
            let alternatives = owned(alloc, alternatives)?;
            Ok(Opening {
                known: opening.known,
                pending: put(opening.pending, alternatives)?,
            })
        }
    }
}

// Alternatives on a stack, the first one last.
fn put(pending: Vec<Alt>, alternatives: Vec<Alt>) -> Result<Vec<Alt>, OutOfMemory>
    ensures { IfOk result (λ all. turned all.items no_alts ≡ followed_by (alt_trees alternatives.items) (turned pending.items no_alts)) }
{
    let mut pending = pending;
    let mut left = alternatives;
    while let Some(alternative) = left.pop() {
        pending.push(alternative)?;
    }
    Ok(pending)
}
