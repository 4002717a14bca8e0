// What was checked.

ghost use Rattle.std.specs.Prelude.{◌≡◌, true};
ghost use Rattle.expr_tree.specs.View.{view_of};
ghost use Rattle.spec_checks.specs.Definitions.{spec_faults};
ghost use Rattle.sync_checks.specs.Below.spec_table.specs.Tables.{table_spec};
ghost use Rattle.spec_check.specs.NoRefusal.{is_fine};

use expr_tree::Expr;
use sync_checks::handed::spec_table::ClassTable;

/// The table of a specification of which nothing is refused.
pub struct Checked {
    pub(crate) table: ClassTable,
    ghost fine: { is_fine (spec_faults (table_spec table)) ≡ true },
}

// A derived drop would be proved again in each crate that drops what was checked.
impl Drop for Checked {
    fn drop(self) {
        let Checked { table: _ } = self;
    }
}

/// The expression of a run, of which nothing is refused in the specification that it was checked with.
pub struct CheckedExpr {
    pub(crate) expr: Expr,
}

impl Drop for CheckedExpr {
    fn drop(self) {
        let CheckedExpr { expr: _ } = self;
    }
}

impl Checked {
    ghost use Rattle.spec_check.specs.Fine.{checked_table};
    ghost use Rattle.spec_checks.specs.WellTyped.{IsWellTypedSpec};

    /// The table of its classes.
    #[tactic(auto, using(crate::proofs::FineLemmas::well_typed))]
    pub fn table(&self) -> &ClassTable
        ensures table { result.now ≡ checked_table self.now }
        ensures well_typed { IsWellTypedSpec (table_spec result.now) }
    {
        &self.table
    }
}

impl CheckedExpr {
    ghost use Rattle.spec_check.specs.Fine.{checked_tree};

    /// The expression.
    pub fn expr(&self) -> &Expr
        ensures { view_of result.now ≡ checked_tree self.now }
    {
        &self.expr
    }
}
