// All classes of a table.

ghost use Rattle.std.specs.Prelude.{◌≡◌, OnOk};
ghost use Rattle.std.specs.List.{flat_map};
ghost use Rattle.vdm_tree.specs.ClassView.{class_view};
ghost use Rattle.spec_checks.specs.Definitions.{class_faults, spec_faults};
ghost use Rattle.class_checks.specs.Results.{first_among};
ghost use Rattle.sync_checks.specs.Below.check_scopes.specs.Told.{first_in};
ghost use Rattle.sync_checks.specs.Below.spec_table.specs.Tables.{table_spec};
ghost use Rattle.spec_check.specs.Named.{faults_named};

use crate::blocks::refuse_blocks;
use std::alloc::Global;
use sync_checks::handed::check_scopes::Refusals;
use sync_checks::handed::definition_scopes::Site;
use sync_checks::handed::spec_table::ClassTable;
use vdm_kinds::{Name, OutOfMemory};
use vdm_tree::ClassDef;

/// Notes what is refused in the classes that were read.
pub(crate) fn refuse_spec(
    alloc: Global,
    table: &ClassTable,
    refusals: &mut Refusals,
) -> Result<(), OutOfMemory>
    ensures { OnOk result (first_in refusals.new ≡ first_among (first_in refusals.old) (spec_faults (table_spec table.now))) }
{
    // `IO` comes first, which stands in no text.
    match table.classes() {
        [_, names @ ..] => refuse_classes(alloc, table, names, refusals),
        [] => Ok(()),
    }
}

fn refuse_classes(
    alloc: Global,
    table: &ClassTable,
    names: &[Name],
    refusals: &mut Refusals,
) -> Result<(), OutOfMemory>
    ensures { OnOk result (first_in refusals.new ≡ first_among (first_in refusals.old) (flat_map (faults_named (class_faults (table_spec table.now)) (table_spec table.now)) names.now)) }
{
    for name in names {
        refuse_named(alloc, table, *name, refusals)?;
    }
    Ok(())
}

// The class of a name.
fn refuse_named(
    alloc: Global,
    table: &ClassTable,
    name: Name,
    refusals: &mut Refusals,
) -> Result<(), OutOfMemory>
    ensures { OnOk result (first_in refusals.new ≡ first_among (first_in refusals.old) (faults_named (class_faults (table_spec table.now)) (table_spec table.now) name)) }
{
    match table.number(name) {
        Some(_) => refuse_class(alloc, table, table.class(name), refusals),
        None => Ok(()),
    }
}

fn refuse_class(
    alloc: Global,
    table: &ClassTable,
    class: &ClassDef,
    refusals: &mut Refusals,
) -> Result<(), OutOfMemory>
    ensures { OnOk result (first_in refusals.new ≡ first_among (first_in refusals.old) (class_faults (table_spec table.now) (class_view class.now))) }
{
    let site = Site {
        alloc,
        table,
        class: class.name,
    };
    refuse_blocks(site, class.blocks.as_slice(), refusals)
}
