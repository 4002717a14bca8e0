// All type definitions, in text order.

ghost use Rattle.std.specs.Prelude.{◌≡◌, ◌++◌, IfOk, OnOk};
ghost use Rattle.vdm_tree.specs.ClassView.{block_view, class_view};
ghost use Rattle.class_meaning.specs.TypeGraph.{types_in, class_types, type_definitions as all_definitions};
ghost use Rattle.class_index.specs.Lists.{spec_of};
ghost use Rattle.type_graphs.specs.Numbers.{trees_at};

use class_index::ClassList;
use expr_tree::TypeDef;
use std::alloc::Global;
use vdm_kinds::OutOfMemory;
use vdm_tree::{Block, ClassDef};

/// All type definitions, in text order.
pub(crate) fn type_definitions<'t>(
    alloc: Global,
    list: &'t ClassList,
) -> Result<Vec<&'t TypeDef>, OutOfMemory>
    ensures { IfOk result (λ definitions. trees_at definitions.items ≡ all_definitions (spec_of list.now)) }
{
    let mut definitions = Vec::new(alloc);
    for class in list.all() {
        push_class(&mut definitions, class)?;
    }
    Ok(definitions)
}

/// Adds those of a class.
fn push_class<'t>(
    definitions: &mut Vec<&'t TypeDef>,
    class: &'t ClassDef,
) -> Result<(), OutOfMemory>
    ensures { OnOk result (trees_at definitions.new.items ≡ trees_at definitions.old.items ++ class_types (class_view class.now)) }
{
    for block in &class.blocks {
        push_block(definitions, block)?;
    }
    Ok(())
}

/// Adds those of a block.
fn push_block<'t>(definitions: &mut Vec<&'t TypeDef>, block: &'t Block) -> Result<(), OutOfMemory>
    ensures { OnOk result (trees_at definitions.new.items ≡ trees_at definitions.old.items ++ types_in (block_view block.now)) }
{
    if let Block::Types(types, _) = block {
        for definition in types {
            definitions.push(definition)?;
        }
    }
    Ok(())
}
