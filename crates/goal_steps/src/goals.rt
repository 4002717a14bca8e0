// What assignments write to.

ghost use Rattle.std.specs.Prelude.{◌≡◌, map, option_map, IfOk};
ghost use Rattle.std.specs.Borrow.{Bor};
ghost use Rattle.vdm_tree.specs.ClassView.{variable_view};
ghost use Rattle.vdm_tree.specs.declared.class_def.VarDef.{VarDef as VarDefOf};
ghost use Rattle.vdm_tree.specs.StmtView.{target_step_view, target_view};
ghost use Rattle.spec_table.specs.Tables.{table_spec};
ghost use Rattle.node_meaning.specs.Names.{variable_in as variable_in_of};
ghost use Rattle.stmt_meaning.specs.Targets.{declared_type as declared_type_of, defined_goal as defined_plan, found_goal as found_plan, goal_of as goal_plan, named_goal as named_plan, target_steps, variable_goal as variable_plan};
ghost use Rattle.eval_data.specs.Parts.{here_of};
ghost use Rattle.step_data.specs.Declarations.{declared_of, typed_name};
ghost use Rattle.step_data.specs.Goals.{goal_view};

use eval_data::Here;
use name_steps::{variable_definition, variable_here, variable_in};
use spec_table::ClassTable;
use step_data::{Declared, Goal};
use target_values::declared_type;
use type_tree::TypeExpr;
use vdm_kinds::{Name, OutOfMemory, VarRef};
use vdm_tree::{Target, TargetStep, VarDef};

/// What a target names, where it names something: the newest local variable of the name that is declared, or else a variable of the
/// class, on the object on which it stands.
pub fn goal_of<'t>(
    table: &'t ClassTable,
    here: Here<'t>,
    declared: &Declared<'t>,
    target: &Target,
) -> Result<Option<Goal<'t>>, OutOfMemory>
    ensures { IfOk result (λ g. option_map goal_view g ≡ goal_plan (table_spec table.now) (here_of here.entry) (declared_of declared.now) (target_view target.now)) }
{
    goal_among(table, here, declared.as_slice(), target)
}

/// The same, where these local variables are declared.
pub(crate) fn goal_among<'t>(
    table: &'t ClassTable,
    here: Here<'t>,
    declared: &[(Name, &'t TypeExpr)],
    target: &Target,
) -> Result<Option<Goal<'t>>, OutOfMemory>
    ensures { IfOk result (λ g. option_map goal_view g ≡ goal_plan (table_spec table.now) (here_of here.entry) (map typed_name declared.now) (target_view target.now)) }
{
    match target {
        Target::Name(name, _, _) => named_goal(table, here, declared, *name),
        Target::Qualified(class, name, _, _, _) => {
            found_goal(table, here, variable_in(table, Some(*class), *name))
        }
    }
}

/// A local variable hides those of the class.
fn named_goal<'t>(
    table: &'t ClassTable,
    here: Here<'t>,
    declared: &[(Name, &'t TypeExpr)],
    name: Name,
) -> Result<Option<Goal<'t>>, OutOfMemory>
    ensures { IfOk result (λ g. option_map goal_view g ≡ named_plan (declared_type_of (map typed_name declared.now) name) name (found_plan (table_spec table.now) (here_of here.entry) (variable_in_of (table_spec table.now) here.entry.scope name))) }
{
    match declared_type(declared, name) {
        Some(declared) => Ok(Some(Goal::Local(name, declared))),
        None => found_goal(table, here, variable_in(table, here.scope, name)),
    }
}

/// A variable on the object on which it stands, where there is a variable of the name.
fn found_goal<'t>(
    table: &'t ClassTable,
    here: Here<'t>,
    var: Option<VarRef>,
) -> Result<Option<Goal<'t>>, OutOfMemory>
    ensures { IfOk result (λ g. option_map goal_view g ≡ found_plan (table_spec table.now) (here_of here.entry) var) }
{
    let Some(var) = var else {
        return Ok(None);
    };
    let object = variable_here(table, here, &var)?;
    Ok(variable_goal(table, object, var))
}

/// A variable on this object, if there is one.
fn variable_goal<'t>(table: &'t ClassTable, object: Option<u32>, var: VarRef) -> Option<Goal<'t>>
    ensures { option_map goal_view result ≡ variable_plan (table_spec table.now) object var }
{
    match object {
        Some(object) => defined_goal(object, var, variable_definition(table, &var)),
        None => None,
    }
}

fn defined_goal<'t>(me: u32, var: VarRef, definition: Option<&'t VarDef>) -> Option<Goal<'t>>
    ensures { option_map goal_view result ≡ defined_plan me var (option_map (λ (v : Bor VarDefOf). variable_view v.now) definition.entry) }
{
    let definition = definition?;
    Some(Goal::Variable(me, var, &definition.declared))
}

/// The steps into what a target names.
pub fn target_steps(target: &Target) -> &[TargetStep]
    ensures { map target_step_view result.now ≡ target_steps (target_view target.now) }
{
    match target {
        Target::Name(_, steps, _) => steps.as_slice(),
        Target::Qualified(_, _, _, steps, _) => steps.as_slice(),
    }
}
