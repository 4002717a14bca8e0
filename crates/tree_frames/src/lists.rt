// Lists of parts, and one part more.

ghost use Rattle.std.specs.Prelude.{◌≡◌, map, IfOk};
ghost use Rattle.expr_tree.specs.View.{view_of, views_of, pattern_view, pattern_views, bind_view, maplet_view, field_value_view, defined_view, branch_view, case_view, maplet_pattern_view, expr_trees, pattern_trees, bind_trees, maplet_trees, field_value_trees, defined_trees, branch_trees, case_trees, maplet_pattern_trees};
ghost use Rattle.grammar_trees.specs.Lists.{and_expr, and_pattern, and_bind, and_maplet, and_field_value, and_defined, and_branch, and_case, and_maplet_pattern};

use expr_tree::{Bind, Branch, Case, Defined, Expr, FieldValue, Maplet, MapletPattern, Pattern};
use vdm_kinds::OutOfMemory;

/// One expression more.
pub fn with_expr(items: Vec<Expr>, last: Box<Expr>) -> Result<Vec<Expr>, OutOfMemory>
    ensures { IfOk result (λ all. expr_trees (views_of all.items) ≡ and_expr (expr_trees (views_of items.items)) (view_of last.value)) }
{
    let mut items = items;
    items.push(Box::into_inner(last))?;
    Ok(items)
}

/// One pattern more.
pub fn with_pattern(items: Vec<Pattern>, last: Pattern) -> Result<Vec<Pattern>, OutOfMemory>
    ensures { IfOk result (λ all. pattern_trees (pattern_views all.items) ≡ and_pattern (pattern_trees (pattern_views items.items)) (pattern_view last)) }
{
    let mut items = items;
    items.push(last)?;
    Ok(items)
}

/// One bind more.
pub fn with_bind(items: Vec<Bind>, last: Bind) -> Result<Vec<Bind>, OutOfMemory>
    ensures { IfOk result (λ all. bind_trees (map bind_view all.items) ≡ and_bind (bind_trees (map bind_view items.items)) (bind_view last)) }
{
    let mut items = items;
    items.push(last)?;
    Ok(items)
}

/// One `key |-> value` more.
pub fn with_maplet(items: Vec<Maplet>, last: Maplet) -> Result<Vec<Maplet>, OutOfMemory>
    ensures { IfOk result (λ all. maplet_trees (map maplet_view all.items) ≡ and_maplet (maplet_trees (map maplet_view items.items)) (maplet_view last).key (maplet_view last).value) }
{
    let mut items = items;
    items.push(last)?;
    Ok(items)
}

/// One `name |-> value` more.
pub fn with_field_value(
    items: Vec<FieldValue>,
    last: FieldValue,
) -> Result<Vec<FieldValue>, OutOfMemory>
    ensures { IfOk result (λ all. field_value_trees (map field_value_view all.items) ≡ and_field_value (field_value_trees (map field_value_view items.items)) (field_value_view last).name (field_value_view last).name_place (field_value_view last).value) }
{
    let mut items = items;
    items.push(last)?;
    Ok(items)
}

/// One definition more.
pub fn with_defined(items: Vec<Defined>, last: Defined) -> Result<Vec<Defined>, OutOfMemory>
    ensures { IfOk result (λ all. defined_trees (map defined_view all.items) ≡ and_defined (defined_trees (map defined_view items.items)) (defined_view last).pattern (defined_view last).declared (defined_view last).value) }
{
    let mut items = items;
    items.push(last)?;
    Ok(items)
}

/// One `elseif condition then value` more.
pub fn with_branch(items: Vec<Branch>, last: Branch) -> Result<Vec<Branch>, OutOfMemory>
    ensures { IfOk result (λ all. branch_trees (map branch_view all.items) ≡ and_branch (branch_trees (map branch_view items.items)) (branch_view last).condition (branch_view last).value) }
{
    let mut items = items;
    items.push(last)?;
    Ok(items)
}

/// One case more.
pub fn with_case(items: Vec<Case>, last: Case) -> Result<Vec<Case>, OutOfMemory>
    ensures { IfOk result (λ all. case_trees (map case_view all.items) ≡ and_case (case_trees (map case_view items.items)) (pattern_trees (case_view last).patterns) (case_view last).value) }
{
    let mut items = items;
    items.push(last)?;
    Ok(items)
}

/// One `key |-> value` of patterns more.
pub fn with_maplet_pattern(
    items: Vec<MapletPattern>,
    last: MapletPattern,
) -> Result<Vec<MapletPattern>, OutOfMemory>
    ensures { IfOk result (λ all. maplet_pattern_trees (map maplet_pattern_view all.items) ≡ and_maplet_pattern (maplet_pattern_trees (map maplet_pattern_view items.items)) (maplet_pattern_view last).key (maplet_pattern_view last).value) }
{
    let mut items = items;
    items.push(last)?;
    Ok(items)
}
