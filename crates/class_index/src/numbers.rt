// The numbers of classes by their names.

ghost use Rattle.std.specs.Prelude.{◌≡◌, ℕ, nat_eq, if◌then◌else◌, map, Some, None, IfOk, OnOk};
ghost use Rattle.std.specs.HashMap.{get};
ghost use Rattle.vdm_tree.specs.ClassView.{class_view};
ghost use Rattle.class_meaning.specs.Members.{or_else};
ghost use Rattle.class_index.specs.Numbers.{FindsNumbers};

use std::alloc::Global;
use std::collections::HashMap;
use vdm_kinds::{Name, OutOfMemory};
use vdm_tree::ClassDef;

/// Notes the number of a class, where the name is new.
fn note(numbers: &mut HashMap<u32, usize>, name: Name, number: usize) -> Result<(), OutOfMemory>
    ensures { OnOk result ((n : ℕ) → get nat_eq numbers.new n ≡ or_else (get nat_eq numbers.old n) (if nat_eq n name.0 then Some number else None)) }
{
    if !numbers.contains_key(&name.0) {
        numbers.insert(name.0, number)?;
    }
    Ok(())
}

/// The number of the first class of each name.
pub(crate) fn numbers_of(
    alloc: Global,
    classes: &[ClassDef],
) -> Result<HashMap<u32, usize>, OutOfMemory>
    ensures { IfOk result (λ numbers. FindsNumbers numbers (map class_view classes.now)) }
{
    let mut numbers = HashMap::new(alloc);
    for number in 0..classes.len() {
        note(&mut numbers, classes[number].name, number)?;
    }
    Ok(numbers)
}
