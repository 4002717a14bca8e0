// Which types are alternatives of which.

ghost use Rattle.std.specs.Prelude.{◌≡◌, IfOk};
ghost use Rattle.std.specs.Option.{option_and_then};
ghost use Rattle.expr_tree.specs.TypeDefView.{type_def_view};
ghost use Rattle.graph_cycles.specs.Graphs.{graph_of};
ghost use Rattle.class_index.specs.Lists.{spec_of};
ghost use Rattle.class_meaning.specs.Found.{type_named as definition_named};
ghost use Rattle.class_meaning.specs.TypeGraph.{type_number, alternative_numbers as numbers_behind, type_graph as graph_of_types};
ghost use Rattle.found_members.specs.Resolved.{Resolves};
ghost use Rattle.type_graphs.specs.Numbers.{AreNumbers};

use crate::alternatives::alternatives;
use crate::definitions::type_definitions;
use crate::named::type_named;
use crate::type_numbers::TypeNumbers;
use class_index::ClassList;
use expr_tree::TypeDef;
use found_members::FoundNames;
use std::alloc::Global;
use vdm_kinds::{Name, OutOfMemory, TypeName};

/// The number of the definition that an alternative of one in a class is, where it is one.
fn alternative_number(
    list: &ClassList,
    names: &FoundNames,
    numbers: &TypeNumbers,
    scope: Name,
    alternative: TypeName,
) -> Option<usize>
    requires names { Resolves names.now (spec_of list.now) }
    requires numbers { AreNumbers numbers.now (spec_of list.now) }
    ensures { result
        ≡ option_and_then (type_number (spec_of list.now)) (definition_named (spec_of list.now) scope alternative.class alternative.name) }
{
    let found = type_named(list, names, scope, alternative.class, alternative.name)?;
    numbers.number(found.class, found.name)
}

/// The numbers of the definitions that the alternatives of a definition are.
fn alternative_numbers(
    alloc: Global,
    list: &ClassList,
    names: &FoundNames,
    numbers: &TypeNumbers,
    definition: &TypeDef,
) -> Result<Vec<usize>, OutOfMemory>
    requires names { Resolves names.now (spec_of list.now) }
    requires numbers { AreNumbers numbers.now (spec_of list.now) }
    ensures { IfOk result (λ found. found.items ≡ numbers_behind (spec_of list.now) (type_def_view definition.now)) }
{
    let mut found = Vec::new(alloc);
    for alternative in &alternatives(alloc, &definition.body)? {
        if let Some(number) = alternative_number(
            list,
            names,
            numbers,
            definition.class,
            *alternative,
        ) {
            found.push(number)?;
        }
    }
    Ok(found)
}

/// For each type definition, in text order, the numbers of those that its alternatives are.
pub fn type_graph(
    alloc: Global,
    list: &ClassList,
    names: &FoundNames,
) -> Result<Vec<Vec<usize>>, OutOfMemory>
    requires { Resolves names.now (spec_of list.now) }
    ensures { IfOk result (λ graph. graph_of graph.items ≡ graph_of_types (spec_of list.now)) }
{
    let definitions = type_definitions(alloc, list)?;
    let numbers = TypeNumbers::of(alloc, list)?;
    let mut graph = Vec::new(alloc);
    for definition in &definitions {
        graph.push(alternative_numbers(alloc, list, names, &numbers, definition)?)?;
    }
    Ok(graph)
}
