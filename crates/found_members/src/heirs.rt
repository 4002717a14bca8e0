// What each class inherits, superclasses first.

ghost use Rattle.std.specs.Prelude.{◌≡◌, ◌<◌, ◌++◌, ℕ, true, length, map, slice_get, IfOk, OnOk};
ghost use Rattle.std.specs.List.{list_all};
ghost use Rattle.std.specs.Option.{option_copied};
ghost use Rattle.abstract_syntax.specs.Classes.{SpecTree};
ghost use Rattle.graph_cycles.specs.Graphs.{graph_of, successors, IsOrder};
ghost use Rattle.vdm_tree.specs.ClassView.{class_view};
ghost use Rattle.class_meaning.specs.Classes.{classes as classes_of, class_graph};
ghost use Rattle.class_meaning.specs.Found.{found};
ghost use Rattle.found_members.specs.Agreements.{agreed_at, Agrees, Answers, Notes};
ghost use Rattle.found_members.specs.Rows.{is_placed, next_of, row_ways, Builds, HaveIndexes, IsHeir, IsWhole, Places, Rows, Settles};
ghost use Rattle.found_members.specs.Ways.{own_ways, Covers, HasAll};

use crate::agreement::Agreement;
use crate::following::agreed_at;
use crate::inherited::{Inherited, circles};
use crate::ways::push_class;
use class_index::OwnMembers;
use class_meaning::Ask;
use std::alloc::Global;
use vdm_kinds::OutOfMemory;
use vdm_tree::ClassDef;

/// Adds more ways.
fn push_all(ways: &mut Vec<Ask>, more: &[Ask]) -> Result<(), OutOfMemory>
    ensures { OnOk result (ways.new.items ≡ ways.old.items ++ more.now) }
{
    for way in more {
        ways.push(*way)?;
    }
    Ok(())
}

/// Adds the ways of a class's own members.
fn push_own(ways: &mut Vec<Ask>, classes: &[ClassDef], k: usize) -> Result<(), OutOfMemory>
    ensures { OnOk result (ways.new.items ≡ ways.old.items ++ own_ways (map class_view classes.now) k) }
{
    match classes.get(k) {
        Some(class) => push_class(ways, class),
        None => Ok(()),
    }
}

/// Adds the ways in which superclasses that agree are asked.
fn push_agreed(ways: &mut Vec<Ask>, row: Option<&Inherited>) -> Result<(), OutOfMemory>
    ensures { OnOk result (ways.new.items ≡ ways.old.items ++ row_ways (option_copied row.entry)) }
{
    match row {
        Some(Inherited::Agreed(agreement)) => push_all(ways, &agreement.ways),
        Some(Inherited::From(_)) => Ok(()),
        Some(Inherited::Nothing) => Ok(()),
        Some(Inherited::Circle) => Ok(()),
        None => Ok(()),
    }
}

/// Adds the ways in which the superclasses of a class are asked, where several agree.
fn push_row(ways: &mut Vec<Ask>, rows: &[Inherited], k: usize) -> Result<(), OutOfMemory>
    ensures { OnOk result (ways.new.items ≡ ways.old.items ++ row_ways (slice_get rows.now k)) }
{
    push_agreed(ways, rows.get(k))
}

/// The one superclass of a class.
fn next_of(rows: &[Inherited], k: usize) -> Option<usize>
    ensures { result ≡ next_of (slice_get rows.now k) }
{
    match rows.get(k) {
        Some(Inherited::From(class)) => Some(*class),
        Some(Inherited::Agreed(_)) | Some(Inherited::Nothing) | Some(Inherited::Circle) | None => {
            None
        }
    }
}

/// The ways and those of a class, all but those of its one superclass.
fn with_step(
    ways: Vec<Ask>,
    classes: &[ClassDef],
    rows: &[Inherited],
    k: usize,
) -> Result<Vec<Ask>, OutOfMemory>
    ensures { IfOk result (λ all. all.items ≡ ways.items ++ own_ways (map class_view classes.now) k ++ row_ways (slice_get rows.now k)) }
{
    let mut ways = ways;
    push_own(&mut ways, classes, k)?;
    push_row(&mut ways, rows, k)?;
    Ok(ways)
}

/// The ways with all those of a class that is placed.
fn with_ways(
    ways: Vec<Ask>,
    classes: &[ClassDef],
    rows: &[Inherited],
    k: usize,
) -> Result<Vec<Ask>, OutOfMemory>
    ensures { IfOk result (λ all. (spec : SpecTree) → map class_view classes.now ≡ classes_of spec → Rows rows.now spec → is_placed rows.now k ≡ true
        → HasAll ways.items all.items × Covers all.items (λ ask. found spec ask k)) }
{
    let mut ways = ways;
    let mut at = k;
    for _turn in 0..rows.len() {
        ways = with_step(ways, classes, rows, at)?;
        match next_of(rows, at) {
            Some(class) => at = class,
            None => return Ok(ways),
        }
    }
    Ok(ways)
}

/// The ways of all these classes, which are placed.
fn ways_of(
    alloc: Global,
    classes: &[ClassDef],
    rows: &[Inherited],
    superclasses: &[usize],
) -> Result<Vec<Ask>, OutOfMemory>
    ensures { IfOk result (λ all. (spec : SpecTree) → map class_view classes.now ≡ classes_of spec → Rows rows.now spec
        → list_all (is_placed rows.now) superclasses.now ≡ true → Covers all.items (agreed_at spec superclasses.now)) }
{
    let mut ways = Vec::new(alloc);
    for class in superclasses {
        ways = with_ways(ways, classes, rows, *class)?;
    }
    Ok(ways)
}

/// Adds what is found in one way, where it is not there yet.
fn note(
    agreement: &mut Agreement,
    own: &[OwnMembers],
    rows: &[Inherited],
    superclasses: &[usize],
    way: Ask,
) -> Result<(), OutOfMemory>
    ensures { OnOk result ((spec : SpecTree) → HaveIndexes own.now (classes_of spec) → Rows rows.now spec → list_all (is_placed rows.now) superclasses.now ≡ true
        → Answers agreement.old (agreed_at spec superclasses.now)
        → Notes agreement.old agreement.new (agreed_at spec superclasses.now) way) }
{
    if !agreement.has(way) {
        agreement.add(way, agreed_at(own, rows, superclasses, way))?;
    }
    Ok(())
}

/// What several superclasses, all of them placed, agree on.
fn agreement_of(
    alloc: Global,
    classes: &[ClassDef],
    own: &[OwnMembers],
    rows: &[Inherited],
    superclasses: &[usize],
) -> Result<Agreement, OutOfMemory>
    ensures { IfOk result (λ agreement. (spec : SpecTree) → HaveIndexes own.now (classes_of spec) → map class_view classes.now ≡ classes_of spec → Rows rows.now spec
        → list_all (is_placed rows.now) superclasses.now ≡ true → Agrees agreement (agreed_at spec superclasses.now)) }
{
    let ways = ways_of(alloc, classes, rows, superclasses)?;
    let mut agreement = Agreement::none(alloc);
    for way in &ways {
        note(&mut agreement, own, rows, superclasses, *way)?;
    }
    Ok(agreement)
}

/// What a class with these superclasses, all of them placed, inherits.
fn row_of(
    alloc: Global,
    classes: &[ClassDef],
    own: &[OwnMembers],
    rows: &[Inherited],
    superclasses: &[usize],
) -> Result<Inherited, OutOfMemory>
    ensures { IfOk result (λ row. (spec : SpecTree) (k : ℕ) → HaveIndexes own.now (classes_of spec) → map class_view classes.now ≡ classes_of spec → Rows rows.now spec
        → list_all (is_placed rows.now) superclasses.now ≡ true → superclasses.now ≡ successors (class_graph spec) k → Settles spec k → IsHeir spec k row) }
{
    match superclasses {
        [] => Ok(Inherited::Nothing),
        [class] => Ok(Inherited::From(*class)),
        _ => Ok(Inherited::Agreed(agreement_of(alloc, classes, own, rows, superclasses)?)),
    }
}

/// The rows with that of one class more, whose superclasses are placed.
fn with_row(
    rows: Vec<Inherited>,
    alloc: Global,
    classes: &[ClassDef],
    own: &[OwnMembers],
    graph: &[Vec<usize>],
    node: usize,
) -> Result<Vec<Inherited>, OutOfMemory>
    requires node { node < length graph.now }
    requires count { length rows.items ≡ length graph.now }
    ensures placed { IfOk result (λ all. (spec : SpecTree) → Builds own.now (map class_view classes.now) (graph_of graph.now) spec → Rows rows.items spec
        → list_all (is_placed rows.items) (successors (class_graph spec) node) ≡ true → Settles spec node → Places spec rows.items all.items node) }
    ensures count { IfOk result (λ all. length all.items ≡ length graph.now) }
{
    let row = row_of(alloc, classes, own, &rows, &graph[node])?;
    let mut rows = rows;
    rows[node] = row;
    Ok(rows)
}

/// What each class inherits. The nodes are those that lead to no circle, superclasses first.
pub(crate) fn rows_of(
    alloc: Global,
    classes: &[ClassDef],
    own: &[OwnMembers],
    graph: &[Vec<usize>],
    nodes: &[usize],
) -> Result<Vec<Inherited>, OutOfMemory>
    requires { IsOrder (graph_of graph.now) nodes.now }
    ensures { IfOk result (λ rows. (spec : SpecTree) → Builds own.now (map class_view classes.now) (graph_of graph.now) spec → Rows rows.items spec × IsWhole spec rows.items) }
{
    let mut rows = circles(alloc, graph.len())?;
    for node in nodes {
        rows = with_row(rows, alloc, classes, own, graph, *node)?;
    }
    Ok(rows)
}
