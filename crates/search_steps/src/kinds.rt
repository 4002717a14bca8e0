// The kinds of nodes that go through choices, by their binds.

ghost use Rattle.std.specs.Prelude.{◌≡◌, ◌∷◌, [], map, IfOk};
ghost use Rattle.abstract_syntax.specs.Expressions.{bind_in, one_bind, no_binds, one_pattern, no_patterns};
ghost use Rattle.expr_tree.specs.View.{bind_trees, bind_view, boxed_view, maybe_view, pattern_view};
ghost use Rattle.plans.specs.Plans.{part};
ghost use Rattle.node_meaning.specs.Choosing.{choosing, finds, sets_of, behind_sets};
ghost use Rattle.node_meaning.specs.Envs.{Locals, at};
ghost use Rattle.node_meaning.specs.Needs.{Setting};
ghost use Rattle.node_meaning.specs.Tasks.{expr_in};
ghost use Rattle.spec_table.specs.Tables.{table_spec};
ghost use Rattle.eval_data.specs.Parts.{here_of, chooser_of, patterns_at, source_of};
ghost use Rattle.eval_data.specs.Steps.{code_of, frame_then};

use crate::gathered::{patterns_of, source_in, sources_of, with_bind};
use crate::parts::part_of;
use crate::sets::{next_set, set_frame};
use eval_data::{Chooser, Frame, Here, Sets, Source, Step};
use expr_tree::{Bind, Expr, Pattern};
use spec_table::ClassTable;
use std::alloc::Global;
use vdm_kinds::{Name, OutOfMemory, Place};
use vdm_values::Slot;

/// A node with several binds.
pub fn choosing_several<'t>(
    alloc: Global,
    table: &ClassTable,
    locals: &mut Vec<(Name, Slot)>,
    here: Here<'t>,
    place: Place,
    binds: &'t [Bind],
    chooser: Chooser<'t>,
) -> Result<Step<'t>, OutOfMemory>
    ensures { IfOk result (λ s. (setting : Setting) → setting.spec ≡ table_spec table.now → code_of setting locals.new.items s ≡ choosing setting.spec (here_of here.entry) place (bind_trees (map bind_view binds.now)) (chooser_of chooser.entry) locals.old.items) }
{
    let sets = Sets {
        here,
        place,
        sources: sources_of(alloc, binds)?,
        at: 0,
        lists: Vec::new(alloc),
        patterns: patterns_of(alloc, binds)?,
        chooser,
    };
    next_set(alloc, table, locals, Box::new(alloc, sets)?)
}

/// A node with one bind.
pub fn choosing_one<'t>(
    alloc: Global,
    here: Here<'t>,
    place: Place,
    bind: &'t Box<Bind>,
    chooser: Chooser<'t>,
) -> Result<Step<'t>, OutOfMemory>
    ensures { IfOk result (λ s. (setting : Setting) (locals : Locals) → code_of setting locals s ≡ choosing setting.spec (here_of here.entry) place (one_bind (bind_view bind.now.value) no_binds) (chooser_of chooser.entry) locals) }
{
    let patterns = with_bind(Vec::new(alloc), bind)?;
    first_set(alloc, here, place, source_in(bind), patterns, chooser)
}

/// The statement `let be`, for who waits until the names of the choice are bound: its set, and what is done with its value.
pub fn finding<'t>(
    alloc: Global,
    here: Here<'t>,
    place: Place,
    bind: &'t Box<Bind>,
    condition: &'t Option<Box<Expr>>,
) -> Result<(&'t Box<Expr>, Frame<'t>), OutOfMemory>
    ensures { IfOk result (λ found. (setting : Setting) (locals : Locals) → part (expr_in (at (here_of here.entry) locals) (boxed_view found.0.now)) (frame_then setting found.1) ≡ choosing setting.spec (here_of here.entry) place (one_bind (bind_view bind.now.value) no_binds) (finds (maybe_view condition.now)) locals) }
{
    let patterns = with_bind(Vec::new(alloc), bind)?;
    let source = source_in(bind);
    let chooser = Chooser::Finds(condition);
    let frame = first_frame(alloc, here, place, source, patterns, chooser)?;
    Ok((source.set, frame))
}

/// A node with one pattern.
pub fn choosing_in<'t>(
    alloc: Global,
    here: Here<'t>,
    place: Place,
    pattern: &'t Box<Pattern>,
    set: &'t Box<Expr>,
    chooser: Chooser<'t>,
) -> Result<Step<'t>, OutOfMemory>
    ensures { IfOk result (λ s. (setting : Setting) (locals : Locals) → code_of setting locals s ≡ choosing setting.spec (here_of here.entry) place (one_bind (bind_in (one_pattern (pattern_view pattern.now.value) no_patterns) (boxed_view set.now)) no_binds) (chooser_of chooser.entry) locals) }
{
    let patterns = vec![in alloc; pattern.as_ref()]?;
    let source = Source { set, count: 1 };
    first_set(alloc, here, place, source, patterns, chooser)
}

// The only set as a part.
fn first_set<'t>(
    alloc: Global,
    here: Here<'t>,
    place: Place,
    source: Source<'t>,
    patterns: Vec<&'t Pattern>,
    chooser: Chooser<'t>,
) -> Result<Step<'t>, OutOfMemory>
    ensures { IfOk result (λ s. (setting : Setting) (locals : Locals) → code_of setting locals s ≡ sets_of (here_of here.entry) place (source_of source.entry ∷ []) [] (behind_sets setting.spec (here_of here.entry) place (patterns_at patterns.entry.items) (chooser_of chooser.entry)) locals) }
{
    let frame = first_frame(alloc, here, place, source, patterns, chooser)?;
    Ok(part_of(here, source.set, frame))
}

// What is done with the value of the only set.
fn first_frame<'t>(
    alloc: Global,
    here: Here<'t>,
    place: Place,
    source: Source<'t>,
    patterns: Vec<&'t Pattern>,
    chooser: Chooser<'t>,
) -> Result<Frame<'t>, OutOfMemory>
    ensures { IfOk result (λ frame. (setting : Setting) (locals : Locals) → part (expr_in (at (here_of here.entry) locals) (boxed_view source.entry.set.now)) (frame_then setting frame) ≡ sets_of (here_of here.entry) place (source_of source.entry ∷ []) [] (behind_sets setting.spec (here_of here.entry) place (patterns_at patterns.entry.items) (chooser_of chooser.entry)) locals) }
{
    let sets = Sets {
        here,
        place,
        sources: vec![in alloc; source]?,
        at: 0,
        lists: Vec::new(alloc),
        patterns,
        chooser,
    };
    Ok(set_frame(Box::new(alloc, sets)?, source))
}
