// A form, which clauses see as its tree.

ghost use Rattle.std.specs.Prelude.{◌≡◌, IfOk};
ghost use Rattle.form_meaning.specs.Forms.{any_form, no_form, one_of, map_alt, only};
ghost use Rattle.type_forms.specs.Tree.{tree_of, alt_of, alt_trees};

use std::alloc::Global;
use std::marker::Model;
use std::rc::Rc;
use vdm_kinds::{Name, OutOfMemory};

/// What the checker knows of the values that an expression may have. Copies share their parts.
#[cycle(form)]
#[derive(Drop)]
pub struct Form {
    node: Node,
}

/// A form's kind, with its parts.
#[cycle(form)]
#[derive(Drop)]
pub enum Node {
    /// Any value.
    Any,
    /// No value.
    Nothing,
    /// A value of one of these kinds.
    OneOf(Rc<Vec<Alt>>),
}

/// A kind of values, with what is known of their parts.
#[cycle(form)]
#[derive(Drop)]
pub enum Alt {
    Nil,
    Bool,
    Number,
    Character,
    Quote(Name),
    Token,
    /// A tuple, by its parts.
    Tuple(Vec<Form>),
    /// A record of the type of this class and name.
    Record { class: Name, name: Name },
    Seq(Form),
    Set(Form),
    /// A map, by its keys and its values.
    Map(Form, Form),
    /// An object of this class or one below it.
    Object(Name),
    /// What the type of this class and name takes.
    Named { class: Name, name: Name },
}

impl Model for Form {
    ghost use Rattle.form_meaning.specs.Forms.{FormTree};
    ghost use Rattle.type_forms.specs.Sizes.{nodes_of};
    ghost use Rattle.type_forms.specs.FormCode.{form_code};

    ghost Value = { FormTree };

    ghost coded = { form_code };

    ghost use Rattle.type_forms.specs.Tree.{tree_of};

    ghost view = { λ f. tree_of f.node };

    ghost size = { nodes_of };

    ghost use Rattle.type_forms.specs.TreeFalls.{deep-tree_of};

    ghost size_decreases = { λ a _. deep-tree_of a.node };
}

impl Form {
    /// The form whose kind and parts are `node`.
    pub fn new(node: Node) -> Form
        ensures { result ≡ tree_of node }
    {
        Form { node }
    }

    /// The form of any value.
    pub fn any() -> Form
        ensures { result ≡ any_form }
    {
        Form { node: Node::Any }
    }

    /// The form of no value.
    pub fn nothing() -> Form
        ensures { result ≡ no_form }
    {
        Form {
            node: Node::Nothing,
        }
    }

    /// The form of the values of one kind.
    pub fn only(alloc: Global, alt: Alt) -> Result<Form, OutOfMemory>
        ensures { IfOk result (λ f. f ≡ only (alt_of alt)) }
    {
        let mut alts = Vec::with_capacity(alloc, 1)?;
        alts.push(alt)?;
        Form::one_of(alloc, alts)
    }

    /// The form of the values of these kinds.
    pub fn one_of(alloc: Global, alts: Vec<Alt>) -> Result<Form, OutOfMemory>
        ensures { IfOk result (λ f. f ≡ one_of (alt_trees alts.items)) }
    {
        let node = Node::OneOf(Rc::new(alloc, alts)?);
        Ok(Form { node })
    }

    /// The kind and the parts.
    pub fn node(&self) -> &Node
        ensures { self.now ≡ tree_of result.now }
    {
        &self.node
    }

    /// The kind and the parts, taken out.
    pub fn into_node(self) -> Node
        ensures { self ≡ tree_of result }
    {
        self.node
    }

    /// The same form, which shares its parts; no memory is taken.
    pub fn copy(&self) -> Result<Form, OutOfMemory>
        ensures { IfOk result (λ f. f ≡ self.now) }
    {
        let node = match &self.node {
            Node::Any => Node::Any,
            Node::Nothing => Node::Nothing,
            Node::OneOf(alts) => Node::OneOf(alts.clone()?),
        };
        Ok(Form { node })
    }
}

impl Alt {
    /// The same kind, whose parts are shared.
    pub fn copy(&self, alloc: Global) -> Result<Alt, OutOfMemory>
        ensures { IfOk result (λ a. alt_of a ≡ alt_of self.now) }
    {
        match self {
            Alt::Nil => Ok(Alt::Nil),
            Alt::Bool => Ok(Alt::Bool),
            Alt::Number => Ok(Alt::Number),
            Alt::Character => Ok(Alt::Character),
            Alt::Quote(name) => Ok(Alt::Quote(*name)),
            Alt::Token => Ok(Alt::Token),
            Alt::Tuple(parts) => Ok(Alt::Tuple(copy_forms(alloc, parts.as_slice())?)),
            Alt::Record { class, name } => Ok(Alt::Record {
                class: *class,
                name: *name,
            }),
            Alt::Seq(items) => Ok(Alt::Seq(items.copy()?)),
            Alt::Set(elements) => Ok(Alt::Set(elements.copy()?)),
            Alt::Map(keys, values) => copy_map(keys, values),
            Alt::Object(class) => Ok(Alt::Object(*class)),
            Alt::Named { class, name } => Ok(Alt::Named {
                class: *class,
                name: *name,
            }),
        }
    }
}

// A map's kind of these keys and values.
fn copy_map(keys: &Form, values: &Form) -> Result<Alt, OutOfMemory>
    ensures { IfOk result (λ a. alt_of a ≡ map_alt keys.now values.now) }
{
    let keys = keys.copy()?;
    Ok(Alt::Map(keys, values.copy()?))
}

/// Copies of the forms, in order.
pub(crate) fn copy_forms(alloc: Global, forms: &[Form]) -> Result<Vec<Form>, OutOfMemory>
    ensures { IfOk result (λ copies. copies.items ≡ forms.now) }
{
    let mut copies = Vec::with_capacity(alloc, forms.len())?;
    for form in forms {
        copies.push(form.copy()?)?;
    }
    Ok(copies)
}

/// Copies of the alternatives, in order.
pub(crate) fn copy_alts(alloc: Global, alts: &[Alt]) -> Result<Vec<Alt>, OutOfMemory>
    ensures { IfOk result (λ copies. alt_trees copies.items ≡ alt_trees alts.now) }
{
    let mut copies = Vec::with_capacity(alloc, alts.len())?;
    for alt in alts {
        copies.push(alt.copy(alloc)?)?;
    }
    Ok(copies)
}

/// Shared alternatives as one's own: moved where nobody else has them.
pub(crate) fn owned(alloc: Global, shared: Rc<Vec<Alt>>) -> Result<Vec<Alt>, OutOfMemory>
    ensures { IfOk result (λ own. alt_trees own.items ≡ alt_trees shared.value.items) }
{
    match Rc::try_unwrap(shared) {
        Ok(own) => Ok(own),
        Err(shared) => copy_alts(alloc, shared.as_slice()),
    }
}
