// Classes: the first form that is not built.

ghost use Rattle.std.specs.Prelude.{◌≡◌, map};
ghost use Rattle.text_phases.specs.Built.{unbuilt_in_class_block, unbuilt_in_class_blocks, unbuilt_in_class, unbuilt_in_classes};
ghost use Rattle.vdm_tree.specs.ClassView.{class_view, block_view};

use crate::definitions::{unbuilt_in_functions, unbuilt_in_types, unbuilt_in_values};
use crate::members::{unbuilt_in_items, unbuilt_in_operations};
use vdm_kinds::Place;
use vdm_tree::{Block, ClassDef};

/// Where the first form of a block stands that is not built.
fn unbuilt_in_class_block(block: &Block) -> Option<Place>
    ensures { result ≡ unbuilt_in_class_block (block_view block.now) }
{
    match block {
        Block::Types(types, _) => unbuilt_in_types(types),
        Block::Values(values, _) => unbuilt_in_values(values),
        Block::Variables(items, _) => unbuilt_in_items(items),
        Block::Functions(functions, _) => unbuilt_in_functions(functions),
        Block::Operations(operations, _) => unbuilt_in_operations(operations),
        Block::Thread(_, place) | Block::Sync(_, place) => Some(*place),
    }
}

fn unbuilt_in_class_blocks(blocks: &[Block]) -> Option<Place>
    ensures { result ≡ unbuilt_in_class_blocks (map block_view blocks.now) }
{
    for block in blocks {
        if let Some(place) = unbuilt_in_class_block(block) {
            return Some(place);
        }
    }
    None
}

fn unbuilt_in_class(class: &ClassDef) -> Option<Place>
    ensures { result ≡ unbuilt_in_class (class_view class.now) }
{
    unbuilt_in_class_blocks(&class.blocks)
}

/// Where the first form of classes stands, in text order, that has no meaning so far; nothing where all are built.
pub(crate) fn unbuilt_in_classes(classes: &[ClassDef]) -> Option<Place>
    ensures { result ≡ unbuilt_in_classes (map class_view classes.now) }
{
    for class in classes {
        if let Some(place) = unbuilt_in_class(class) {
            return Some(place);
        }
    }
    None
}
