// What a run leaves out.

ghost use Rattle.std.specs.Prelude.{◌≡◌, map};
ghost use Rattle.std.specs.List.{flat_map};
ghost use Rattle.vdm_tree.specs.ClassView.{block_view, class_view};
ghost use Rattle.spec_checks.specs.Threads.{block_left_out, class_left_out, left_out_block, spec_left_out};
ghost use Rattle.class_checks.specs.Results.{first_among};
ghost use Rattle.sync_checks.specs.Below.check_scopes.specs.Told.{first_in};
ghost use Rattle.sync_checks.specs.Below.spec_table.specs.Tables.{table_spec};
ghost use Rattle.spec_check.specs.Named.{faults_named};

use sync_checks::handed::check_scopes::Refusals;
use sync_checks::handed::spec_table::ClassTable;
use vdm_kinds::{Name, SpecFault, SpecKind};
use vdm_tree::Block;

/// The first block of a thread or of synchronisation.
pub(crate) fn left_out_block(table: &ClassTable) -> Option<SpecFault>
    ensures { result ≡ left_out_block (table_spec table.now) }
{
    let mut refusals = Refusals::new();
    refuse_left_out(table, &mut refusals);
    refusals.first()
}

fn refuse_left_out(table: &ClassTable, refusals: &mut Refusals)
    ensures { first_in refusals.new ≡ first_among (first_in refusals.old) (spec_left_out (table_spec table.now)) }
{
    // `IO` comes first, which has neither.
    match table.classes() {
        [_, names @ ..] => refuse_in_classes(table, names, refusals),
        [] => {}
    }
}

fn refuse_in_classes(table: &ClassTable, names: &[Name], refusals: &mut Refusals)
    ensures { first_in refusals.new ≡ first_among (first_in refusals.old) (flat_map (faults_named class_left_out (table_spec table.now)) names.now) }
{
    for name in names {
        refuse_in_class(table, *name, refusals);
    }
}

fn refuse_in_class(table: &ClassTable, name: Name, refusals: &mut Refusals)
    ensures { first_in refusals.new ≡ first_among (first_in refusals.old) (faults_named class_left_out (table_spec table.now) name) }
{
    match table.number(name) {
        Some(_) => refuse_in_blocks(table.class(name).blocks.as_slice(), refusals),
        None => {}
    }
}

fn refuse_in_blocks(blocks: &[Block], refusals: &mut Refusals)
    ensures { first_in refusals.new ≡ first_among (first_in refusals.old) (flat_map block_left_out (map block_view blocks.now)) }
{
    for block in blocks {
        refuse_block(block, refusals);
    }
}

fn refuse_block(block: &Block, refusals: &mut Refusals)
    ensures { first_in refusals.new ≡ first_among (first_in refusals.old) (block_left_out (block_view block.now)) }
{
    match block {
        Block::Thread(_, place) => refusals.refuse(SpecKind::LeftOut, *place),
        Block::Sync(_, place) => refusals.refuse(SpecKind::LeftOut, *place),
        _ => {}
    }
}
