// Both texts of a run.

ghost use Rattle.std.specs.Prelude.{◌≡◌, ◌<◌, ◌^◌, length, IfOk, OnOk, Ok, Err, Some, None};
ghost use Rattle.vdm_kinds.specs.NameList.{built_in_names};
ghost use Rattle.vdm_kinds.specs.declared.spec_fault.SpecFault.{SpecFault};
ghost use Rattle.text_phases.specs.Built.{unbuilt_fault};
ghost use Rattle.text_phases.specs.Phases.{IsAccepted, first_refusal, main_checks_fault, read_expr};
ghost use Rattle.expr_tree.specs.View.{view_of};
ghost use Rattle.spec_check.specs.Fine.{checked_table, checked_tree};
ghost use Rattle.spec_check.specs.Below.spec_table.specs.Tables.{table_spec};

use crate::expression::parse_expression;
use crate::specification::read_specification;
use built_forms::unbuilt_fault;
use spec_check::{Checked, CheckedExpr, check_main};
use std::alloc::Global;
use vdm_kinds::{Halt, SpecFault};
use vdm_names::Names;
use vdm_tree::Expr;

/// The table of the specification and the tree of the expression, of two texts of a run, where both are accepted, and their names; or
/// the first refusal: of the specification, of the expression behind it, and last the first form of them that is not built. Want of
/// memory is told apart.
pub fn read_texts(
    alloc: Global,
    spec: &[u8],
    text: &[u8],
    names: &mut Names,
) -> Result<(Checked, CheckedExpr), Halt<SpecFault>>
    requires { names.old ≡ built_in_names }
    ensures trees { IfOk result (λ t. IsAccepted spec.now text.now names.new (table_spec (checked_table t.0)) (checked_tree t.1)) }
    ensures refused { (fault : SpecFault) → result ≡ Err (Halt.Of fault) → first_refusal spec.now text.now ≡ Some fault }
{
    let checked = read_specification(alloc, spec, names)?;
    let expression = read_expression(alloc, text, &checked, names)?;
    Ok((checked, expression))
}

/// The expression of a text behind a specification that was checked; or its first fault: of its lexemes, of its grammar, of the checks,
/// and last the first form of both that is not built.
fn read_expression(
    alloc: Global,
    text: &[u8],
    checked: &Checked,
    names: &mut Names,
) -> Result<CheckedExpr, Halt<SpecFault>>
    requires { length names.old < 2 ^ 31 }
    ensures tree { IfOk result (λ e. read_expr names.old (table_spec (checked_table checked.now)) text.now ≡ Ok (names.new, checked_tree e)) }
    ensures refused { (fault : SpecFault) → result ≡ Err (Halt.Of fault)
        → read_expr names.old (table_spec (checked_table checked.now)) text.now ≡ Err fault }
{
    match parse_expression(alloc, text, names) {
        Ok(parsed) => check(alloc, checked, parsed),
        Err(halt) => Err(halt),
    }
}

/// The expression where neither the checks refuse anything of it nor anything of both is not built, or the first fault.
fn check(alloc: Global, checked: &Checked, parsed: Expr) -> Result<CheckedExpr, Halt<SpecFault>>
    ensures tree { IfOk result (λ e. checked_tree e ≡ view_of parsed) }
    ensures fine { OnOk result (main_checks_fault (table_spec (checked_table checked.now)) (view_of parsed) ≡ None) }
    ensures refused { (fault : SpecFault) → result ≡ Err (Halt.Of fault)
        → main_checks_fault (table_spec (checked_table checked.now)) (view_of parsed) ≡ Some fault }
{
    match check_main(alloc, checked, parsed) {
        Ok(expression) => match fault_of(checked, &expression) {
            Some(fault) => Err(Halt::Of(fault)),
            None => Ok(expression),
        },
        Err(halt) => Err(halt),
    }
}

/// The first form that is not built, of a specification and an expression that were checked.
fn fault_of(checked: &Checked, expression: &CheckedExpr) -> Option<SpecFault>
    ensures { result ≡ unbuilt_fault (table_spec (checked_table checked.now)) (checked_tree expression.now) }
{
    unbuilt_fault(checked.table().text_classes(), expression.expr())
}
