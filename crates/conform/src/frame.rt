// What is tested behind a part.

use crate::test::Test;
use expr_tree::{Field, TypeDef, TypeExpr};
use vdm_kinds::Name;
use vdm_values::Value;

/// What is tested behind a part, each in the class of the name.
#[derive(Drop)]
pub(crate) enum Frame<'v, 't> {
    /// Further values against one type.
    Values(Name, &'t TypeExpr, &'v [Value]),
    /// Further entries, against the type of the keys and that of the values.
    Entries(Name, &'t TypeExpr, &'t TypeExpr, &'v [(Value, Value)]),
    /// The value of an entry, and then further entries.
    Entry(Name, &'t TypeExpr, &'t TypeExpr, &'v Value, &'v [(Value, Value)]),
    /// Further values, each against its own type.
    Factors(Name, &'t [TypeExpr], &'v [Value]),
    /// ... and against that of its field.
    Fields(Name, &'t [Field], &'v [Value]),
    /// The type's own invariant has to hold of the value.
    Own(&'t TypeDef, &'v Value),
    /// The first of these types was tested in place of a union, behind what had been found before.
    Alternatives(Vec<Test<'t>>, Name, &'t [TypeExpr], &'v Value),
}
