// A value, which clauses see as its tree.

ghost use Rattle.std.specs.Prelude.{◌≡◌, IfOk, IsTrue, ◌↔◌};
ghost use Rattle.vdm_values.specs.Tree.{node_of, tree_of, IsRising};

use std::alloc::Global;
use std::marker::Model;
use std::sync::Arc;
use vdm_kinds::{Name, OutOfMemory};

/// A value of the language. Its node is read by `node` and taken out by `into_node`. One that was shared by `share` is copied
/// in constant time, however large it is.
#[cycle(value)]
#[derive(Debug, Drop)]
pub struct Value {
    kept: Kept,
}

// A node of the value's own, or one that copies of the value share.
#[cycle(value)]
#[derive(Debug, Drop)]
enum Kept {
    Alone(Node),
    Shared(Arc<Node>),
}

/// The kind of a value, with its parts.
#[cycle(value)]
#[derive(Debug, Drop)]
pub enum Node {
    Nil,
    Bool(bool),
    Int(i128),
    Char(char),
    Quote(Name),
    Token(Box<Value>),
    Tuple(Vec<Value>),
    Rec {
        class: Name,
        name: Name,
        fields: Vec<Value>,
    },
    Seq(Vec<Value>),
    Set(Vec<Value>),
    Map(Vec<(Value, Value)>),
    Object {
        number: u32,
        class: Name,
    },
}

impl Model for Value {
    ghost use Rattle.abstract_syntax.specs.Values.{ValueTree, nodes_of};
    ghost use Rattle.abstract_syntax.specs.ValueCode.{value_code};

    ghost Value = { ValueTree };

    ghost coded = { value_code };

    ghost use Rattle.vdm_values.specs.Tree.{node_of, tree_of, IsRising};

    ghost view = { λ v. tree_of (node_of v.kept) };

    ghost invariant = { λ v. IsRising (node_of v.kept) };

    ghost size = { nodes_of };

    ghost use Rattle.vdm_values.specs.TreeFalls.{deep-node_of};

    ghost size_decreases = { λ a _. deep-node_of a.kept };
}

impl Value {
    /// The value whose kind and parts are `node`.
    pub fn new(node: Node) -> Value
        requires { IsRising node }
        ensures { result ≡ tree_of node }
    {
        Value {
            kept: Kept::Alone(node),
        }
    }

    /// The kind and the parts.
    pub fn node(&self) -> &Node
        ensures tree { self.now ≡ tree_of result.now }
        ensures rises { IsRising result.now }
    {
        self.kept.node()
    }

    /// The kind and the parts, taken out; they are copied where another value shares them.
    pub fn into_node(self, alloc: Global) -> Result<Node, OutOfMemory>
        ensures tree { IfOk result (λ n. self ≡ tree_of n) }
        ensures rises { IfOk result IsRising }
    {
        match self.kept {
            Kept::Alone(node) => Ok(node),
            Kept::Shared(shared) => {
                let node = owned(alloc, shared)?;
                Ok(node)
            }
        }
    }

    /// The same value, whose copies take no memory from now on and share what it is made of. Only a value that has parts takes
    /// memory for it, and only once.
    pub fn share(self, alloc: Global) -> Result<Value, OutOfMemory>
        ensures { IfOk result (λ v. v ≡ self) }
    {
        match self.kept {
            Kept::Alone(node) => {
                let kept = node.shared(alloc)?;
                Ok(Value { kept })
            }
            Kept::Shared(shared) => Ok(Value {
                kept: Kept::Shared(shared),
            }),
        }
    }

    /// A value with the same tree. It takes memory for its parts but where these are shared.
    #[cycle(copy)]
    pub fn copy(&self, alloc: Global) -> Result<Value, OutOfMemory>
        ensures { IfOk result (λ v. v ≡ self.now) }
    {
        let kept = self.kept.copy(alloc)?;
        Ok(Value { kept })
    }

    // Whether the two are the same tree.
    #[cycle(equals)]
    fn equals(&self, other: &Value) -> bool
        ensures { IsTrue result ↔ self.now ≡ other.now }
    {
        self.node().equals(other.node())
    }
}

impl Kept {
    // The node, whoever has it.
    fn node(&self) -> &Node
        ensures { result.now ≡ node_of self.now }
    {
        match self {
            Kept::Alone(node) => node,
            Kept::Shared(shared) => shared,
        }
    }

    // A node that stands for the same tree; one that is shared stays shared.
    #[cycle(copy)]
    fn copy(&self, alloc: Global) -> Result<Kept, OutOfMemory>
        ensures { IfOk result (λ kept. tree_of (node_of kept) ≡ tree_of (node_of self.now)) }
    {
        match self {
            Kept::Alone(node) => Ok(Kept::Alone(node.copy(alloc)?)),
            Kept::Shared(shared) => Ok(Kept::Shared(shared.clone()?)),
        }
    }
}

// A shared node as one of one's own: moved where no other value has it.
fn owned(alloc: Global, shared: Arc<Node>) -> Result<Node, OutOfMemory>
    ensures { IfOk result (λ n. tree_of n ≡ tree_of shared.value) }
{
    match Arc::try_unwrap(shared) {
        Ok(node) => Ok(node),
        Err(shared) => shared.copy(alloc),
    }
}

impl Node {
    // Whether it has parts, which a copy would copy.
    fn has_parts(&self) -> bool {
        match self {
            Node::Token(_)
            | Node::Tuple(_)
            | Node::Rec { .. }
            | Node::Seq(_)
            | Node::Set(_)
            | Node::Map(_) => true,
            _ => false,
        }
    }

    // The node as one that copies share, where it has parts.
    fn shared(self, alloc: Global) -> Result<Kept, OutOfMemory>
        ensures { IfOk result (λ kept. node_of kept ≡ self) }
    {
        if self.has_parts() {
            Ok(Kept::Shared(Arc::new(alloc, self)?))
        } else {
            Ok(Kept::Alone(self))
        }
    }

    /// A node of its own that stands for the same tree.
    #[cycle(copy)]
    pub fn copy(&self, alloc: Global) -> Result<Node, OutOfMemory>
        ensures { IfOk result (λ n. tree_of n ≡ tree_of self.now) }
    {
        match self {
            Node::Nil => Ok(Node::Nil),
            Node::Bool(truth) => Ok(Node::Bool(*truth)),
            Node::Int(number) => Ok(Node::Int(*number)),
            Node::Char(character) => Ok(Node::Char(*character)),
            Node::Quote(name) => Ok(Node::Quote(*name)),
            Node::Token(inner) => Ok(Node::Token(Box::new(alloc, inner.copy(alloc)?)?)),
            Node::Tuple(items) => Ok(Node::Tuple(copy_values(items.as_slice(), alloc)?)),
            Node::Rec {
                class,
                name,
                fields,
            } => Ok(Node::Rec {
                class: *class,
                name: *name,
                fields: copy_values(fields.as_slice(), alloc)?,
            }),
            Node::Seq(items) => Ok(Node::Seq(copy_values(items.as_slice(), alloc)?)),
            Node::Set(items) => Ok(Node::Set(copy_values(items.as_slice(), alloc)?)),
            Node::Map(pairs) => Ok(Node::Map(copy_pairs(pairs.as_slice(), alloc)?)),
            Node::Object { number, class } => Ok(Node::Object {
                number: *number,
                class: *class,
            }),
        }
    }

    // Whether the two stand for the same tree.
    #[cycle(equals)]
    fn equals(&self, other: &Node) -> bool
        ensures { IsTrue result ↔ tree_of self.now ≡ tree_of other.now }
    {
        match self {
            Node::Nil => matches!(other, Node::Nil),
            Node::Bool(a) => matches!(other, Node::Bool(b) if a == b),
            Node::Int(a) => matches!(other, Node::Int(b) if a == b),
            Node::Char(a) => matches!(other, Node::Char(b) if a == b),
            Node::Quote(a) => matches!(other, Node::Quote(b) if a == b),
            Node::Token(a) => matches!(other, Node::Token(b) if a.equals(b)),
            Node::Tuple(a) =>
                matches!(other, Node::Tuple(b) if are_equal(a.as_slice(), b.as_slice())),
            Node::Rec {
                class,
                name,
                fields: a,
            } => match other {
                Node::Rec {
                    class: c,
                    name: n,
                    fields: b,
                } => class == c && name == n && are_equal(a.as_slice(), b.as_slice()),
                _ => false,
            },
            Node::Seq(a) => matches!(other, Node::Seq(b) if are_equal(a.as_slice(), b.as_slice())),
            Node::Set(a) => matches!(other, Node::Set(b) if are_equal(a.as_slice(), b.as_slice())),
            Node::Map(a) =>
                matches!(other, Node::Map(b) if are_equal_pairs(a.as_slice(), b.as_slice())),
            Node::Object { number, class } => {
                matches!(other, Node::Object { number: n, class: c } if number == n && class == c)
            }
        }
    }
}

impl PartialEq for Value {
    ghost use Rattle.abstract_syntax.specs.SameBy.{same_by, same_by-laws};
    ghost use Rattle.abstract_syntax.specs.ValueCode.{value_code};

    ghost eq = { same_by value_code };

    ghost laws = { same_by-laws value_code };

    #[tactic(auto, using(abstract_syntax::specs::SameBy::sameness))]
    fn eq(&self, other: &Value) -> bool {
        self.equals(other)
    }
}

impl Eq for Value {
    ghost use Rattle.abstract_syntax.specs.SameBy.{same_by-equivalence};
    ghost use Rattle.abstract_syntax.specs.ValueCode.{value_code};

    ghost laws = { same_by-equivalence value_code };
}

/// Copies of the values, in order.
#[cycle(copy)]
pub(crate) fn copy_values(values: &[Value], alloc: Global) -> Result<Vec<Value>, OutOfMemory>
    ensures { IfOk result (λ copies. copies.items ≡ values.now) }
{
    let mut copies = Vec::with_capacity(alloc, values.len())?;
    for value in values {
        copies.push(value.copy(alloc)?)?;
    }
    Ok(copies)
}

/// Copies of the pairs, in order.
#[cycle(copy)]
pub(crate) fn copy_pairs(
    pairs: &[(Value, Value)],
    alloc: Global,
) -> Result<Vec<(Value, Value)>, OutOfMemory>
    ensures { IfOk result (λ copies. copies.items ≡ pairs.now) }
{
    let mut copies = Vec::with_capacity(alloc, pairs.len())?;
    for (key, value) in pairs {
        let key = key.copy(alloc)?;
        copies.push((key, value.copy(alloc)?))?;
    }
    Ok(copies)
}

/// Whether the two lists are the same.
#[cycle(equals)]
fn are_equal(values: &[Value], others: &[Value]) -> bool
    ensures { IsTrue result ↔ values.now ≡ others.now }
{
    if values.len() != others.len() {
        return false;
    }
    for (value, other) in values.iter().zip(others) {
        if !value.equals(other) {
            return false;
        }
    }
    true
}

/// Whether the two lists of pairs are the same.
#[cycle(equals)]
pub(crate) fn are_equal_pairs(pairs: &[(Value, Value)], others: &[(Value, Value)]) -> bool
    ensures { IsTrue result ↔ pairs.now ≡ others.now }
{
    if pairs.len() != others.len() {
        return false;
    }
    for (pair, other) in pairs.iter().zip(others) {
        if !pair.0.equals(&other.0) || !pair.1.equals(&other.1) {
            return false;
        }
    }
    true
}
