//! The syntax trees that the program keeps: statements, classes and specifications; those of expressions and types are handed
//! on.
#![tactic(auto)]

mod class_def;
mod compound;
mod dcl;
mod places;
mod spec;
mod stmt;
mod sync;
mod target;

pub use class_def::{Block, Body, ClassDef, FunctionDef, OpDef, ValueDef, VarDef, VariableItem};
pub use dcl::{Dcl, Local};
pub use expr_tree::{
    Bind, Branch, Case, Defined, Expr, Field, FieldValue, Literal, Maplet, MapletPattern, Pattern,
    TypeBody, TypeDef, TypeExpr, TypeInvariant, TypeNames,
};
pub use spec::Spec;
pub use stmt::{Handler, Stmt, StmtBranch, StmtCase};
pub use sync::{Phase, Sync, Thread};
pub use target::{Assignment, Target, TargetStep};
pub use vdm_kinds::{Access, Level};
