// Declarations of a block.

ghost use Rattle.std.specs.Prelude.{◌≡◌, ◌∷◌, [], map, IfOk, OnOk, option_map};
ghost use Rattle.expr_tree.specs.View.{boxed_view};
ghost use Rattle.vdm_tree.specs.StmtView.{dcl_view, local_view};
ghost use Rattle.class_checks.specs.Results.{Checked, first_among};
ghost use Rattle.spec_checks.specs.Statements.{dcls_in, done, locals_in, maybe_wanting};
ghost use Rattle.spec_checks.specs.Targets.{StmtScope};
ghost use Rattle.stmt_scopes.specs.Below.check_scopes.specs.Told.{first_in};
ghost use Rattle.stmt_scopes.specs.Below.check_frames.specs.Meant.{spec_here};
ghost use Rattle.stmt_scopes.specs.Standing.{standing_of, stands_here};
ghost use Rattle.stmt_scopes.specs.Refused.{refused};
ghost use Rattle.stmt_exprs.specs.Declaring.{with_local};

use crate::wanting::refuse_unlike;
use expr_tree::Expr;
use stmt_scopes::handed::check_frames::Here;
use stmt_scopes::handed::check_scopes::Refusals;
use stmt_scopes::handed::check_types::type_faults;
use stmt_scopes::{Standing, Stands, declared_too, kept};
use type_forms::Form;
use vdm_kinds::{Name, OutOfMemory};
use vdm_tree::{Dcl, Local};

/// Where that stands which stands behind declarations, of which each sees the earlier ones; what is refused in them is noted.
pub fn behind_declarations(
    stands: Stands<'_>,
    declarations: &[Dcl],
    refusals: &mut Refusals,
) -> Result<Standing, OutOfMemory>
    ensures { IfOk result (λ standing. (rest : StmtScope → Checked) → refused (first_in refusals.old) (dcls_in (spec_here stands.entry.here) (stands_here stands.entry) (map dcl_view declarations.now) rest) ≡ refused (first_in refusals.new) (rest (standing_of stands.entry standing))) }
{
    let mut standing = kept(stands)?;
    for declaration in declarations {
        standing = behind_locals(stands, standing, declaration.locals.as_slice(), refusals)?;
    }
    Ok(standing)
}

// Behind locals that stand there.
fn behind_locals(
    stands: Stands<'_>,
    standing: Standing,
    locals: &[Local],
    refusals: &mut Refusals,
) -> Result<Standing, OutOfMemory>
    ensures { IfOk result (λ more. (rest : StmtScope → Checked) → refused (first_in refusals.old) (locals_in (spec_here stands.entry.here) (standing_of stands.entry standing) (map local_view locals.now) rest) ≡ refused (first_in refusals.new) (rest (standing_of stands.entry more))) }
{
    let mut standing = standing;
    for local in locals {
        standing = behind_local(stands, &standing, local, refusals)?;
    }
    Ok(standing)
}

fn behind_local(
    stands: Stands<'_>,
    standing: &Standing,
    local: &Local,
    refusals: &mut Refusals,
) -> Result<Standing, OutOfMemory>
    ensures { IfOk result (λ more. (rest : StmtScope → Checked) → refused (first_in refusals.old) (locals_in (spec_here stands.entry.here) (standing_of stands.entry standing.now) (local_view local.now ∷ []) rest) ≡ refused (first_in refusals.new) (rest (standing_of stands.entry more))) }
{
    let stands = Stands {
        here: Here {
            locals: &standing.locals,
            ..stands.here
        },
        declared: &standing.declared,
        returned: stands.returned,
    };
    declared_here(stands, local, refusals)
}

fn declared_here(
    stands: Stands<'_>,
    local: &Local,
    refusals: &mut Refusals,
) -> Result<Standing, OutOfMemory>
    ensures { IfOk result (λ more. (rest : StmtScope → Checked) → refused (first_in refusals.old) (locals_in (spec_here stands.entry.here) (stands_here stands.entry) (local_view local.now ∷ []) rest) ≡ refused (first_in refusals.new) (rest (standing_of stands.entry more))) }
{
    let Here { alloc, setting, .. } = stands.here;
    type_faults(setting, refusals, &local.declared);
    let form = setting.form_of(alloc, setting.type_scope(), &local.declared)?;
    refuse_initial(stands, &local.initial, &form, refusals)?;
    inside_local(stands, local.name, form)
}

// An initial value has to be what its local may hold.
fn refuse_initial(
    stands: Stands<'_>,
    initial: &Option<Box<Expr>>,
    wanted: &Form,
    refusals: &mut Refusals,
) -> Result<(), OutOfMemory>
    ensures { OnOk result (first_in refusals.new ≡ first_among (first_in refusals.old) (maybe_wanting (spec_here stands.entry.here) (stands_here stands.entry) wanted.now (option_map boxed_view initial.now) done).refusals) }
{
    match initial {
        Some(initial) => refuse_unlike(stands, wanted, initial, refusals),
        None => Ok(()),
    }
}

// Where a local more is declared.
fn inside_local(stands: Stands<'_>, name: Name, form: Form) -> Result<Standing, OutOfMemory>
    ensures { IfOk result (λ standing. standing_of stands.entry standing ≡ with_local (stands_here stands.entry) name form) }
{
    let alloc = stands.here.alloc;
    let locals = stands.here.locals.with(alloc, name, form)?;
    let declared = declared_too(alloc, stands.declared, name)?;
    Ok(Standing { locals, declared })
}
