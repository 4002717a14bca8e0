// Classes and what stands in them.

use crate::stmt::Stmt;
use crate::sync::{Sync, Thread};
use expr_tree::{Expr, Pattern, TypeDef};
use type_tree::TypeExpr;
use vdm_kinds::{Access, Name, NameAt, Place};

/// A class value.
#[derive(Drop)]
pub struct ValueDef {
    pub access: Access,
    pub name: Name,
    /// Where its name stands.
    pub name_place: Place,
    /// Its type, where one is given.
    pub declared: Option<TypeExpr>,
    pub value: Box<Expr>,
    /// Where the definition begins.
    pub place: Place,
}

/// An instance variable.
#[derive(Drop)]
pub struct VarDef {
    pub access: Access,
    pub name: Name,
    /// Where its name stands.
    pub name_place: Place,
    pub declared: TypeExpr,
    /// Its initial value, where one is given.
    pub initial: Option<Box<Expr>>,
    /// Where the definition begins.
    pub place: Place,
}

/// What stands among instance variables.
#[derive(Drop)]
pub enum VariableItem {
    Variable(VarDef),
    /// `inv e`, at the place of the word.
    Invariant(Box<Expr>, Place),
}

/// The body of a function or an operation.
#[derive(Drop)]
pub enum Body<T> {
    Written(T),
    /// `is not yet specified`
    NotYetSpecified,
    /// `is subclass responsibility`
    SubclassResponsibility,
}

/// A function.
#[derive(Drop)]
pub struct FunctionDef {
    pub access: Access,
    pub name: Name,
    /// Where its first name stands.
    pub name_place: Place,
    /// The types of its parameters: the factors of an unbracketed product.
    pub parameters: Vec<TypeExpr>,
    pub result_type: TypeExpr,
    pub patterns: Vec<Pattern>,
    pub body: Body<Box<Expr>>,
    pub pre: Option<Box<Expr>>,
    pub post: Option<Box<Expr>>,
    /// Read, and not looked at.
    pub measure: Option<Box<Expr>>,
    /// Where the definition begins.
    pub place: Place,
}

/// An operation.
#[derive(Drop)]
pub struct OpDef {
    pub access: Access,
    pub name: Name,
    /// Where its first name stands.
    pub name_place: Place,
    /// The types of its parameters: the factors of an unbracketed product.
    pub parameters: Vec<TypeExpr>,
    /// The type of its result, where it has a result.
    pub result_type: Option<TypeExpr>,
    pub patterns: Vec<Pattern>,
    pub body: Body<Box<Stmt>>,
    pub pre: Option<Box<Expr>>,
    pub post: Option<Box<Expr>>,
    /// Where the definition begins.
    pub place: Place,
}

/// A block of definitions in text order, at the place of its first word.
pub enum Block {
    Types(Vec<TypeDef>, Place),
    Values(Vec<ValueDef>, Place),
    Variables(Vec<VariableItem>, Place),
    Functions(Vec<FunctionDef>, Place),
    Operations(Vec<OpDef>, Place),
    Thread(Thread, Place),
    Sync(Vec<Sync>, Place),
}

// A derived drop would be proved again, with those of all definitions, in each crate that drops a block or a specification.
impl Drop for Block {
    fn drop(self) {
        match self {
            Block::Types(_definitions, _place) => {}
            Block::Values(_definitions, _place) => {}
            Block::Variables(_items, _place) => {}
            Block::Functions(_definitions, _place) => {}
            Block::Operations(_definitions, _place) => {}
            Block::Thread(_thread, _place) => {}
            Block::Sync(_clauses, _place) => {}
        }
    }
}

/// A class.
pub struct ClassDef {
    pub name: Name,
    /// Where its first name stands.
    pub name_place: Place,
    pub superclasses: Vec<NameAt>,
    /// Its blocks, in text order.
    pub blocks: Vec<Block>,
    /// Where the word `class` stands.
    pub place: Place,
}

impl Drop for ClassDef {
    fn drop(self) {
        let ClassDef {
            name: _,
            name_place: _,
            superclasses: _,
            blocks: _,
            place: _,
        } = self;
    }
}
