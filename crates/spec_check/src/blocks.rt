// Blocks of definitions.

ghost use Rattle.std.specs.Prelude.{◌≡◌, map, OnOk};
ghost use Rattle.std.specs.List.{flat_map};
ghost use Rattle.vdm_tree.specs.ClassView.{block_view};
ghost use Rattle.spec_checks.specs.Definitions.{block_faults};
ghost use Rattle.class_checks.specs.Results.{first_among};
ghost use Rattle.sync_checks.specs.Below.check_scopes.specs.Told.{first_in};
ghost use Rattle.sync_checks.specs.Below.definition_scopes.specs.Standing.{spec_at};

use crate::lists::{
    refuse_clauses, refuse_functions, refuse_items, refuse_operations, refuse_type_defs,
    refuse_values,
};
use sync_checks::handed::check_scopes::Refusals;
use sync_checks::handed::definition_scopes::Site;
use sync_checks::refuse_thread;
use vdm_kinds::OutOfMemory;
use vdm_tree::Block;

/// Notes what is refused in blocks of definitions.
pub(crate) fn refuse_blocks(
    site: Site<'_>,
    blocks: &[Block],
    refusals: &mut Refusals,
) -> Result<(), OutOfMemory>
    ensures { OnOk result (first_in refusals.new ≡ first_among (first_in refusals.old) (flat_map (block_faults (spec_at site.entry) site.entry.class) (map block_view blocks.now))) }
{
    for block in blocks {
        refuse_block(site, block, refusals)?;
    }
    Ok(())
}

fn refuse_block(site: Site<'_>, block: &Block, refusals: &mut Refusals) -> Result<(), OutOfMemory>
    ensures { OnOk result (first_in refusals.new ≡ first_among (first_in refusals.old) (block_faults (spec_at site.entry) site.entry.class (block_view block.now))) }
{
    match block {
        Block::Types(definitions, _) => refuse_type_defs(site, definitions.as_slice(), refusals),
        Block::Values(definitions, _) => refuse_values(site, definitions.as_slice(), refusals),
        Block::Variables(items, _) => refuse_items(site, items.as_slice(), refusals),
        Block::Functions(definitions, _) => {
            refuse_functions(site, definitions.as_slice(), refusals)
        }
        Block::Operations(definitions, _) => {
            refuse_operations(site, definitions.as_slice(), refusals)
        }
        Block::Thread(thread, _) => refuse_thread(site, thread, refusals),
        Block::Sync(clauses, _) => refuse_clauses(site, clauses.as_slice(), refusals),
    }
}
