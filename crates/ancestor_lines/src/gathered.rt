// What the ancestors of a class have, one after the other.

ghost use Rattle.std.specs.Prelude.{◌≡◌, ℕ, List, map, flat_map, reverse, IfOk};
ghost use Rattle.vdm_tree.specs.ClassView.{class_view};
ghost use Rattle.graph_cycles.specs.Graphs.{graph_of};
ghost use Rattle.class_meaning.specs.Objects.{first_names};
ghost use Rattle.ancestor_lines.specs.Parts.{lists_of, list_at, name_at};

use crate::name_set::NameSet;
use std::alloc::Global;
use vdm_kinds::{Name, OutOfMemory, VarRef};
use vdm_tree::ClassDef;

/// The names of a number; past the end, none.
pub(crate) fn names_at(lists: &[Vec<Name>], k: usize) -> &[Name]
    ensures { result.now ≡ list_at (lists_of lists.now) k }
{
    match lists.get(k) {
        Some(list) => list,
        None => &[],
    }
}

/// The variables of a number; past the end, none.
pub(crate) fn variables_at(lists: &[Vec<VarRef>], k: usize) -> &[VarRef]
    ensures { result.now ≡ list_at (lists_of lists.now) k }
{
    match lists.get(k) {
        Some(list) => list,
        None => &[],
    }
}

/// The name of a class by its number.
fn name_at(classes: &[ClassDef], k: usize) -> Name
    ensures { result ≡ name_at (map class_view classes.now) k }
{
    match classes.get(k) {
        Some(class) => class.name,
        None => Name::IO,
    }
}

/// The names of these classes.
fn line_names(alloc: Global, classes: &[ClassDef], line: &[usize]) -> Result<Vec<Name>, OutOfMemory>
    ensures { IfOk result (λ names. names.items ≡ map (name_at (map class_view classes.now)) line.now) }
{
    let mut names = Vec::new(alloc);
    for k in line {
        names.push(name_at(classes, *k))?;
    }
    Ok(names)
}

/// The same of each list of classes.
pub(crate) fn all_names(
    alloc: Global,
    classes: &[ClassDef],
    lines: &[Vec<usize>],
) -> Result<Vec<Vec<Name>>, OutOfMemory>
    ensures { IfOk result (λ found. lists_of found.items
        ≡ map (λ (line : List ℕ). map (name_at (map class_view classes.now)) line) (graph_of lines.now)) }
{
    let mut found = Vec::new(alloc);
    for line in lines {
        found.push(line_names(alloc, classes, line)?)?;
    }
    Ok(found)
}

/// The variables of these classes, those of the last class first.
fn line_layout(
    alloc: Global,
    own: &[Vec<VarRef>],
    line: &[usize],
) -> Result<Vec<VarRef>, OutOfMemory>
    ensures { IfOk result (λ found. found.items ≡ flat_map (list_at (lists_of own.now)) (reverse line.now)) }
{
    let mut found = Vec::new(alloc);
    for passed in 0..line.len() {
        let k = line[line.len() - 1 - passed];
        found.extend_from_slice(variables_at(own, k))?;
    }
    Ok(found)
}

/// The same of each list of classes.
pub(crate) fn all_layouts(
    alloc: Global,
    own: &[Vec<VarRef>],
    lines: &[Vec<usize>],
) -> Result<Vec<Vec<VarRef>>, OutOfMemory>
    ensures { IfOk result (λ found. lists_of found.items
        ≡ map (λ (line : List ℕ). flat_map (list_at (lists_of own.now)) (reverse line)) (graph_of lines.now)) }
{
    let mut found = Vec::new(alloc);
    for line in lines {
        found.push(line_layout(alloc, own, line)?)?;
    }
    Ok(found)
}

/// The names of the operations of these classes, each once where it stands first.
fn line_operations(
    alloc: Global,
    own: &[Vec<Name>],
    line: &[usize],
) -> Result<Vec<Name>, OutOfMemory>
    ensures { IfOk result (λ found. found.items ≡ first_names (flat_map (list_at (lists_of own.now)) line.now)) }
{
    let mut found = NameSet::none(alloc);
    for k in line {
        found.add_all(names_at(own, *k))?;
    }
    Ok(found.names)
}

/// The same of each list of classes.
pub(crate) fn all_operations(
    alloc: Global,
    own: &[Vec<Name>],
    lines: &[Vec<usize>],
) -> Result<Vec<Vec<Name>>, OutOfMemory>
    ensures { IfOk result (λ found. lists_of found.items
        ≡ map (λ (line : List ℕ). first_names (flat_map (list_at (lists_of own.now)) line)) (graph_of lines.now)) }
{
    let mut found = Vec::new(alloc);
    for line in lines {
        found.push(line_operations(alloc, own, line)?)?;
    }
    Ok(found)
}
