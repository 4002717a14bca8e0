// Several values that are tested one after another.

ghost use Rattle.std.specs.Prelude.{◌≡◌};

use crate::nest::Nest;
use expr_tree::{Expr, Field};
use type_tree::TypeExpr;
use vdm_kinds::{Name, OpRef, Place};
use vdm_tree::FunctionDef;
use vdm_values::{Value, ValueList};

/// Arguments of a function that are being tested against the types of its parameters.
pub struct Passing<'t> {
    pub op: OpRef,
    pub function: &'t FunctionDef,
    /// The place of the application.
    pub place: Place,
    pub nest: Nest,
    /// The types of the parameters that are left, and what stands for these.
    pub types: &'t [TypeExpr],
    pub arguments: &'t Vec<Expr>,
    /// The values of all arguments, of which so many are tested.
    pub values: ValueList,
    pub tested: usize,
}

// By hand, so that whoever drops it calls this, and does not prove again the dropping of all that is in it.
impl<'t> Drop for Passing<'t> {
    fn drop(self) {
        let Passing {
            op: _,
            function: _,
            place: _,
            nest: _,
            types: _,
            arguments: _,
            values: _,
            tested: _,
        } = self;
    }
}

/// Values that are being tested against the types of the fields of a record.
pub struct Filling<'t> {
    pub class: Name,
    pub name: Name,
    pub nest: Nest,
    /// The fields that are left.
    pub fields: &'t [Field],
    /// The values of all fields, of which so many are tested.
    pub values: Vec<Value>,
    pub tested: usize,
}

impl<'t> Drop for Filling<'t> {
    fn drop(self) {
        let Filling {
            class: _,
            name: _,
            nest: _,
            fields: _,
            values: _,
            tested: _,
        } = self;
    }
}

impl<'t> Passing<'t> {
    /// The arguments.
    pub fn into_values(self) -> ValueList
        ensures { result ≡ self.entry.values }
    {
        let Passing {
            op: _,
            function: _,
            place: _,
            nest: _,
            types: _,
            arguments: _,
            values,
            tested: _,
        } = self;
        values
    }
}

impl<'t> Filling<'t> {
    /// The values of the fields.
    pub fn into_values(self) -> Vec<Value>
        ensures { result ≡ self.entry.values }
    {
        let Filling {
            class: _,
            name: _,
            nest: _,
            fields: _,
            values,
            tested: _,
        } = self;
        values
    }
}
