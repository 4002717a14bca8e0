//! Literals and types as the program keeps them.
#![tactic(auto)]

mod literal;
mod places;
mod type_expr;

pub use literal::Literal;
pub use type_expr::TypeExpr;
