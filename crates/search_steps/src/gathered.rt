// What binds give: their patterns, and where their elements come from.

ghost use Rattle.std.specs.Prelude.{◌≡◌, ◌++◌, map, IfOk};
ghost use Rattle.expr_tree.specs.View.{bind_trees, bind_view, pattern_view};
ghost use Rattle.node_meaning.specs.Choosing.{bound_patterns, bind_sources};
ghost use Rattle.eval_data.specs.Parts.{patterns_at, source_of};
ghost use Rattle.search_steps.specs.Gathering.{bind_patterns, bind_source};

use eval_data::Source;
use expr_tree::{Bind, Pattern};
use std::alloc::Global;
use vdm_kinds::OutOfMemory;

/// The patterns of binds, in text order.
pub(crate) fn patterns_of<'t>(
    alloc: Global,
    binds: &'t [Bind],
) -> Result<Vec<&'t Pattern>, OutOfMemory>
    ensures { IfOk result (λ found. patterns_at found.items ≡ bound_patterns (bind_trees (map bind_view binds.now))) }
{
    let mut found = Vec::new(alloc);
    for bind in binds {
        found = with_bind(found, bind)?;
    }
    Ok(found)
}

/// Behind what is found already, the patterns of a bind.
pub(crate) fn with_bind<'t>(
    found: Vec<&'t Pattern>,
    bind: &'t Bind,
) -> Result<Vec<&'t Pattern>, OutOfMemory>
    ensures { IfOk result (λ all. patterns_at all.items ≡ patterns_at found.entry.items ++ bind_patterns (bind_view bind.now)) }
{
    with_each(found, bind.patterns.as_slice())
}

// Behind what is found already, these.
fn with_each<'t>(
    found: Vec<&'t Pattern>,
    patterns: &'t [Pattern],
) -> Result<Vec<&'t Pattern>, OutOfMemory>
    ensures { IfOk result (λ all. patterns_at all.items ≡ patterns_at found.entry.items ++ map pattern_view patterns.now) }
{
    let mut all = found;
    for pattern in patterns {
        all.push(pattern)?;
    }
    Ok(all)
}

/// Where the elements of binds come from, in text order.
pub(crate) fn sources_of<'t>(
    alloc: Global,
    binds: &'t [Bind],
) -> Result<Vec<Source<'t>>, OutOfMemory>
    ensures { IfOk result (λ found. map source_of found.items ≡ bind_sources (bind_trees (map bind_view binds.now))) }
{
    let mut found = Vec::with_capacity(alloc, binds.len())?;
    for bind in binds {
        found.push(source_in(bind))?;
    }
    Ok(found)
}

/// Where the elements of a bind come from.
pub(crate) fn source_in<'t>(bind: &'t Bind) -> Source<'t>
    ensures { source_of result ≡ bind_source (bind_view bind.now) }
{
    Source {
        set: &bind.set,
        count: bind.patterns.len(),
    }
}
