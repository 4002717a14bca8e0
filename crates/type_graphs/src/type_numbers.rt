// The numbers of type definitions by their names.

ghost use Rattle.std.specs.Prelude.{◌≡◌, Some, None, if◌then◌else◌, ◌&&◌, nat_eq, IfOk, OnOk};
ghost use Rattle.std.specs.HashMap.{get};
ghost use Rattle.vdm_kinds.specs.declared.name.Name.{Name};
ghost use Rattle.abstract_syntax.specs.Classes.{is_same_name};
ghost use Rattle.class_meaning.specs.Members.{or_else};
ghost use Rattle.type_graphs.specs.Numbers.{same_pair, trees_at, FindsNumbers};

use crate::definitions::type_definitions;
use class_index::ClassList;
use expr_tree::TypeDef;
use std::alloc::Global;
use std::collections::HashMap;
use vdm_kinds::{Name, OutOfMemory};

/// The number of each type definition in text order.
#[derive(Drop)]
pub struct TypeNumbers {
    numbers: HashMap<(u32, u32), usize>,
}

impl TypeNumbers {
    ghost use Rattle.abstract_syntax.specs.Classes.{SpecTree};
    ghost use Rattle.class_index.specs.Lists.{spec_of};
    ghost use Rattle.class_meaning.specs.TypeGraph.{type_definitions};
    ghost use Rattle.type_graphs.specs.Numbers.{AreNumbers, number_among};

    /// The numbers of all type definitions.
    pub fn of(alloc: Global, list: &ClassList) -> Result<TypeNumbers, OutOfMemory>
        ensures { IfOk result (λ numbers. AreNumbers numbers (spec_of list.now)) }
    {
        let definitions = type_definitions(alloc, list)?;
        let numbers = numbers_of(alloc, &definitions)?;
        Ok(TypeNumbers { numbers })
    }

    /// The number of the first definition of a name in the class of the other name.
    pub fn number(&self, class: Name, name: Name) -> Option<usize>
        ensures { (spec : SpecTree) → AreNumbers self.now spec → result ≡ number_among (type_definitions spec) class name }
    {
        self.numbers.get(&(class.0, name.0)).copied()
    }
}

/// Notes the number of a definition, where the name is new in its class.
fn note(
    numbers: &mut HashMap<(u32, u32), usize>,
    class: Name,
    name: Name,
    number: usize,
) -> Result<(), OutOfMemory>
    ensures { OnOk result ((other_class other : Name) → get same_pair numbers.new (other_class.0, other.0)
        ≡ or_else (get same_pair numbers.old (other_class.0, other.0)) (if is_same_name other_class class && is_same_name other name then Some number else None)) }
{
    let key = (class.0, name.0);
    if !numbers.contains_key(&key) {
        numbers.insert(key, number)?;
    }
    Ok(())
}

/// The number of the first definition of each name.
fn numbers_of(
    alloc: Global,
    definitions: &[&TypeDef],
) -> Result<HashMap<(u32, u32), usize>, OutOfMemory>
    ensures { IfOk result (λ numbers. FindsNumbers numbers (trees_at definitions.now)) }
{
    let mut numbers = HashMap::new(alloc);
    for number in 0..definitions.len() {
        let definition = definitions[number];
        note(&mut numbers, definition.class, definition.name, number)?;
    }
    Ok(numbers)
}
