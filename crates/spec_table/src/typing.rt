// Whether each type says in which class it stands.

ghost use Rattle.std.specs.Prelude.{◌≡◌, map};
ghost use Rattle.std.specs.List.{list_all};
ghost use Rattle.abstract_syntax.specs.Classes.{TypeDefTree, is_same_name};
ghost use Rattle.expr_tree.specs.TypeDefView.{type_def_view};
ghost use Rattle.vdm_tree.specs.ClassView.{class_view, block_view};
ghost use Rattle.member_meaning.specs.TypeRanks.{stand_in as block_stands, has_its_types as class_has_its_types};

use expr_tree::TypeDef;
use vdm_kinds::Name;
use vdm_tree::{Block, ClassDef};

pub(crate) fn types_stand(classes: &[ClassDef]) -> bool
    ensures { result ≡ list_all class_has_its_types (map class_view classes.now) }
{
    for class in classes {
        if !has_its_types(class) {
            return false;
        }
    }
    true
}

fn has_its_types(class: &ClassDef) -> bool
    ensures { result ≡ class_has_its_types (class_view class.now) }
{
    for block in &class.blocks {
        if !stand_in(block, class.name) {
            return false;
        }
    }
    true
}

fn stand_in(block: &Block, class: Name) -> bool
    ensures { result ≡ block_stands class (block_view block.now) }
{
    match block {
        Block::Types(definitions, _) => are_of(definitions.as_slice(), class),
        _ => true,
    }
}

fn are_of(definitions: &[TypeDef], class: Name) -> bool
    ensures { result ≡ list_all (λ (t : TypeDefTree). is_same_name t.class class) (map type_def_view definitions.now) }
{
    for definition in definitions {
        if !is_of(definition, class) {
            return false;
        }
    }
    true
}

fn is_of(definition: &TypeDef, class: Name) -> bool
    ensures { result ≡ is_same_name (type_def_view definition.now).class class }
{
    definition.class.0 == class.0
}
