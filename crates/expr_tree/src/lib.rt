//! The trees of expressions, patterns and definitions of types that the program keeps.
#![tactic(auto)]

mod collections;
mod expr;
mod far_forms;
mod operators;
mod parts;
mod pattern;
mod places;
mod postfixes;
mod records;
mod type_def;
mod type_names;

pub use expr::Expr;
pub use parts::{Branch, Case, Defined, FieldValue, Maplet};
pub use pattern::{Bind, MapletPattern, Pattern};
pub use type_def::{Field, TypeBody, TypeDef, TypeInvariant};
pub use type_names::TypeNames;
pub use type_tree::{Literal, TypeExpr};
