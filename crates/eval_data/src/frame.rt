// What is done with what comes of a part.

use crate::applying::{Applying, Naming};
use crate::asked_type::AskedType;
use crate::asking::Asking;
use crate::collecting::Collecting;
use crate::fitting::{Filling, Passing};
use crate::here::Here;
use crate::matching::MetDefinition;
use crate::nest::Nest;
use crate::search::{Search, Sets};
use crate::selected::Selected;
use crate::wanted::Wanted;
use expr_tree::{Branch, Case, Expr};
use type_tree::TypeExpr;
use vdm_kinds::{Name, Operator, Place, Sign};
use vdm_values::Value;

/// What is done with a truth value.
#[derive(Drop)]
pub enum TruthUse<'t> {
    /// It decides on a branch; behind that stand further ones, and the one where none is true.
    Branch(Here<'t>, &'t Box<Expr>, &'t [Branch], &'t Box<Expr>),
    /// It is the left operand of a sign that stops when decided.
    Left(Here<'t>, Sign, &'t Box<Expr>),
    /// It is the value of the node.
    Right,
    /// The first of the choices that are left fulfils the condition or does not.
    Choice(Box<Search<'t>>),
    /// It is what `pre` says of the arguments of a function.
    Pre(Box<Applying<'t>>),
    /// It is what `post` says of the result of a function.
    Post(Box<Applying<'t>>, Value),
    /// It says whether an invariant holds.
    Invariant(Box<Asking<'t>>),
}

/// What is done with a value.
#[derive(Drop)]
pub enum Use<'t> {
    /// It is the operand of an operator.
    Operand(Operator),
    /// It is the left operand: the right one follows.
    RightOperand(Here<'t>, &'t Box<Expr>, Operator),
    /// It is the right operand, behind the left one.
    Operator(Operator, Value),
    /// It stands behind those that came before it.
    Collect(Box<Collecting<'t>>),
    /// It has to be a truth value.
    Truth(TruthUse<'t>),
    /// It is the value whose member is applied: an operation of an object, or a field of a record. The first place is that of the
    /// selection.
    CallThrough(Here<'t>, Selected, &'t Vec<Expr>, Place, Wanted),
    /// It is the value whose member is selected.
    Select(Selected),
    /// It is asked whether it fits a type, from a class or from none.
    Asked(Nest, Option<Name>, AskedType<'t>),
    /// It is what a definition gives, with a type where one is given.
    Defined(Here<'t>, Option<&'t TypeExpr>, MetDefinition<'t>),
    /// It is the result of a function.
    Result(Box<Applying<'t>>),
    /// It is a class value.
    ClassValue(Box<Naming<'t>>),
    /// It is the subject of alternatives; so many locals stand before those that these bind.
    Subject(Here<'t>, &'t [Case], &'t Option<Box<Expr>>, usize),
    /// It has to be the set of a bind.
    Elements(Box<Sets<'t>>),
    /// It is an argument that fits the type of its parameter: the others are tested, and then the function begins.
    ArgumentFits(Box<Passing<'t>>),
    /// It is a result that fits the type of the function.
    ResultFits(Box<Applying<'t>>),
    /// It is what a definition gives, and fits its type.
    DefinitionFits(Here<'t>, MetDefinition<'t>),
    /// It fits the type of its field: the others are tested, and then the record is made.
    FieldFits(Box<Filling<'t>>),
}

/// What is done with what comes of a need.
#[derive(Clone, Copy)]
pub enum After<'t> {
    /// It is the value of the node.
    Value,
    /// It is what a call gave.
    Given(Wanted),
    /// It is looked up in by an application at the place.
    LooksUp(Here<'t>, &'t Vec<Expr>, Place),
}

/// What is done with what comes of a part.
#[derive(Drop)]
pub enum Frame<'t> {
    /// A value is wanted, and used; the place is that of a fault.
    With(Use<'t>, Place),
    /// It came of a need of the node at the place.
    After(After<'t>, Place),
    /// The locals that were bound for it go.
    Cut(usize),
}

/// A frame, and the tests of types round the node that waits in it.
#[derive(Drop)]
pub struct Level<'t> {
    pub nest: Nest,
    pub frame: Frame<'t>,
}
