// What is refused of the names of records in patterns.

ghost use Rattle.std.specs.Prelude.{◌≡◌, map, IfOk, OnOk};
ghost use Rattle.expr_tree.specs.View.{pattern_view, pattern_views, pattern_trees, maplet_pattern_view, maplet_pattern_trees};
ghost use Rattle.class_checks.specs.Patterns.{pattern_faults, patterns_faults, maplets_faults, pattern_count};
ghost use Rattle.class_checks.specs.Results.{first_among};
ghost use Rattle.class_checks.specs.TypeNames.{record_faults};
ghost use Rattle.check_types.specs.Below.check_scopes.specs.Told.{spec_in, types_in, first_in};
ghost use Rattle.check_patterns.specs.Shown.{patterns_of};

use crate::one_or_many::Patterns;
use check_types::handed::check_scopes::{Refusals, Setting};
use check_types::record_faults;
use expr_tree::{MapletPattern, Pattern};
use std::mem;
use vdm_kinds::{OutOfMemory, Place, TypeName};

/// Refuses what is to be refused of the names of records in the patterns. At want of memory, what was refused before is lost.
pub fn patterns_faults(
    setting: Setting<'_>,
    patterns: Patterns<'_>,
    refusals: &mut Refusals,
) -> Result<(), OutOfMemory>
    ensures { OnOk result (first_in refusals.new ≡ first_among (first_in refusals.old) (patterns_faults (spec_in setting.entry) (types_in setting.entry) (patterns_of patterns.entry))) }
{
    let before = mem::replace(refusals, Refusals::new());
    *refusals = all_refused(setting, patterns, before)?;
    Ok(())
}

fn all_refused(
    setting: Setting<'_>,
    patterns: Patterns<'_>,
    refusals: Refusals,
) -> Result<Refusals, OutOfMemory>
    ensures { IfOk result (λ now. first_in now ≡ first_among (first_in refusals) (patterns_faults (spec_in setting.entry) (types_in setting.entry) (patterns_of patterns.entry))) }
{
    match patterns {
        Patterns::One(pattern) => refuse(setting, pattern.as_ref(), refusals),
        Patterns::Many(patterns) => refuse_each(setting, patterns.as_slice(), refusals),
    }
}

/// Refuses what is to be refused of the names of records in the pattern. At want of memory, what was refused before is lost.
pub fn pattern_faults(
    setting: Setting<'_>,
    pattern: &Pattern,
    refusals: &mut Refusals,
) -> Result<(), OutOfMemory>
    ensures { OnOk result (first_in refusals.new ≡ first_among (first_in refusals.old) (pattern_faults (spec_in setting.entry) (types_in setting.entry) (pattern_view pattern.now))) }
{
    let before = mem::replace(refusals, Refusals::new());
    *refusals = refuse(setting, pattern, before)?;
    Ok(())
}

// The first refusal where this was the first one so far. It recurses once a level.
#[cycle(refusing)]
fn refuse(
    setting: Setting<'_>,
    pattern: &Pattern,
    refusals: Refusals,
) -> Result<Refusals, OutOfMemory>
    ensures { IfOk result (λ now. first_in now ≡ first_among (first_in refusals) (pattern_faults (spec_in setting.entry) (types_in setting.entry) (pattern_view pattern.now))) }
{
    match pattern {
        Pattern::AnyValue(_) => Ok(refusals),
        Pattern::Bound(_, _) => Ok(refusals),
        Pattern::Literal(_, _) => Ok(refusals),
        Pattern::EqualTo(_, _) => Ok(refusals),
        Pattern::Set(parts, _) => refuse_each(setting, parts.as_slice(), refusals),
        Pattern::Sequence(parts, _) => refuse_each(setting, parts.as_slice(), refusals),
        Pattern::Map(maplets, _) => refuse_pairs(setting, maplets.as_slice(), refusals),
        Pattern::EmptyMap(_) => Ok(refusals),
        Pattern::Tuple(parts, _) => refuse_each(setting, parts.as_slice(), refusals),
        Pattern::Record(name, parts, place) => {
            let now = refuse_record(setting, *name, parts.as_slice(), *place, refusals)?;
            refuse_each(setting, parts.as_slice(), now)
        }
        Pattern::Concatenation(parts, _) => refuse_each(setting, parts.as_slice(), refusals),
    }
}

#[cycle(refusing)]
fn refuse_each(
    setting: Setting<'_>,
    patterns: &[Pattern],
    refusals: Refusals,
) -> Result<Refusals, OutOfMemory>
    ensures { IfOk result (λ now. first_in now ≡ first_among (first_in refusals) (patterns_faults (spec_in setting.entry) (types_in setting.entry) (pattern_trees (pattern_views patterns.now)))) }
{
    let mut now = refusals;
    for pattern in patterns {
        now = refuse(setting, pattern, now)?;
    }
    Ok(now)
}

#[cycle(refusing)]
fn refuse_pairs(
    setting: Setting<'_>,
    maplets: &[MapletPattern],
    refusals: Refusals,
) -> Result<Refusals, OutOfMemory>
    ensures { IfOk result (λ now. first_in now ≡ first_among (first_in refusals) (maplets_faults (spec_in setting.entry) (types_in setting.entry) (maplet_pattern_trees (map maplet_pattern_view maplets.now)))) }
{
    let mut now = refusals;
    for maplet in maplets {
        now = refuse(setting, maplet.key.as_ref(), now)?;
        now = refuse(setting, maplet.value.as_ref(), now)?;
    }
    Ok(now)
}

// What is refused of the name of a record pattern of these fields.
#[tactic(auto, using(crate::proofs::Counts::count_of_patterns))]
fn refuse_record(
    setting: Setting<'_>,
    name: TypeName,
    fields: &[Pattern],
    place: Place,
    refusals: Refusals,
) -> Result<Refusals, OutOfMemory>
    ensures { IfOk result (λ now. first_in now ≡ first_among (first_in refusals) (record_faults (spec_in setting.entry) (types_in setting.entry) name (pattern_count (pattern_trees (pattern_views fields.now))) place)) }
{
    let mut now = refusals;
    let _refused = record_faults(setting, &mut now, name, fields.len(), place)?;
    Ok(now)
}
