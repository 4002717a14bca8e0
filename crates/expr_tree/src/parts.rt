// What stands in expressions and is no expression itself.

ghost use Rattle.std.specs.Prelude.{◌≡◌, option_map};
ghost use Rattle.type_tree.specs.TypeView.{type_view};
ghost use Rattle.expr_tree.specs.View.{view_of, pattern_view, pattern_views, maplet_view, field_value_view, defined_view, branch_view, case_view};

use crate::expr::Expr;
use crate::pattern::Pattern;
use type_tree::TypeExpr;
use vdm_kinds::{Name, Place};

/// `a |-> b`
#[cycle(tree)]
#[derive(Drop)]
pub struct Maplet {
    pub key: Box<Expr>,
    pub value: Box<Expr>,
}

/// `f |-> a` in a `mu`.
#[cycle(tree)]
#[derive(Drop)]
pub struct FieldValue {
    pub name: Name,
    /// Where the field's name stands.
    pub name_place: Place,
    pub value: Box<Expr>,
}

/// `p : T = a` in a `let`.
#[cycle(tree)]
#[derive(Drop)]
pub struct Defined {
    pub pattern: Box<Pattern>,
    /// Its type, where one is given.
    pub declared: Option<TypeExpr>,
    pub value: Box<Expr>,
}

/// `elseif c then a`
#[cycle(tree)]
#[derive(Drop)]
pub struct Branch {
    pub condition: Box<Expr>,
    pub value: Box<Expr>,
}

/// `p, q -> a` in a `cases`.
#[cycle(tree)]
#[derive(Drop)]
pub struct Case {
    pub patterns: Vec<Pattern>,
    pub value: Box<Expr>,
}

impl Maplet {
    /// `key |-> value`
    pub fn new(key: Box<Expr>, value: Box<Expr>) -> Maplet
        ensures { maplet_view result ≡ record { key = (view_of key.value); value = (view_of value.value) } }
    {
        Maplet { key, value }
    }
}

impl FieldValue {
    /// The field whose name stands at `name_place`, and its value.
    pub fn new(name: Name, name_place: Place, value: Box<Expr>) -> FieldValue
        ensures { field_value_view result ≡ record { name = name; name_place = name_place; value = (view_of value.value) } }
    {
        FieldValue {
            name,
            name_place,
            value,
        }
    }
}

impl Defined {
    /// `pattern : declared = value`, with a type or without.
    pub fn new(pattern: Box<Pattern>, declared: Option<TypeExpr>, value: Box<Expr>) -> Defined
        ensures { defined_view result ≡ record { pattern = (pattern_view pattern.value); declared = option_map type_view declared; value = (view_of value.value) } }
    {
        Defined {
            pattern,
            declared,
            value,
        }
    }
}

impl Branch {
    /// `elseif condition then value`
    pub fn new(condition: Box<Expr>, value: Box<Expr>) -> Branch
        ensures { branch_view result ≡ record { condition = (view_of condition.value); value = (view_of value.value) } }
    {
        Branch { condition, value }
    }
}

impl Case {
    /// `patterns -> value`
    pub fn new(patterns: Vec<Pattern>, value: Box<Expr>) -> Case
        ensures { case_view result ≡ record { patterns = pattern_views patterns.items; value = (view_of value.value) } }
    {
        Case { patterns, value }
    }
}
