// The numbers of a periodic thread: whole literals, or class values that are one.

ghost use Rattle.std.specs.Prelude.{◌≡◌, ℕ, Some, OnOk};
ghost use Rattle.abstract_syntax.specs.Classes.{SpecTree};
ghost use Rattle.abstract_syntax.specs.Expressions.{literal};
ghost use Rattle.class_meaning.specs.Classes.{class_number};
ghost use Rattle.member_meaning.specs.Meaning.{meant};
ghost use Rattle.spec_checks.specs.Definitions.{delay_most, in_range_faults, is_within, literal_number, number_in, number_of, value_number};
ghost use Rattle.class_checks.specs.Results.{first_among};
ghost use Rattle.part_checks.specs.Below.check_scopes.specs.Told.{first_in, spec_in, types_in};
ghost use Rattle.part_checks.specs.Below.check_frames.specs.Meant.{scope_here, spec_here};
ghost use Rattle.expr_tree.specs.View.{boxed_view, view_of};
ghost use Rattle.type_tree.specs.LiteralView.{literal_view};
ghost use Rattle.part_checks.specs.Below.spec_table.specs.Meanings.{meant_view};
ghost use Rattle.part_checks.specs.Below.spec_table.specs.Members.{item_view};
ghost use Rattle.vdm_kinds.specs.declared.name.Name.{Name as NameOf};
ghost use Rattle.vdm_kinds.specs.declared.place.Place.{Place as PlaceOf};
ghost use Rattle.sync_checks.specs.Numbers.{tick_in};

use class_meaning::Ask;
use expr_tree::{Expr, Literal};
use part_checks::handed::check_frames::Here;
use part_checks::handed::check_scopes::{Refusals, Setting};
use part_checks::handed::spec_table::{Item, Meant};
use part_checks::refuse_expr;
use vdm_kinds::{Name, OutOfMemory, Place, SpecKind};

/// The greatest number of ticks.
pub(crate) const MOST_TICKS: u64 = 1_000_000_000;

/// From where to where a number has to be.
#[derive(Clone, Copy)]
pub(crate) struct Bounds {
    pub(crate) least: u64,
    pub(crate) greatest: u64,
}

/// Notes what is refused in a number: as an expression; where it is no literal and no class value that is one; and where it is
/// out of range.
pub(crate) fn refuse_tick(
    here: Here<'_>,
    bounds: Bounds,
    expr: &Box<Expr>,
    refusals: &mut Refusals,
) -> Result<(), OutOfMemory>
    ensures { OnOk result (first_in refusals.new ≡ first_among (first_in refusals.old) (tick_in (spec_here here.entry) (scope_here here.entry) bounds.least bounds.greatest (boxed_view expr.now))) }
{
    refuse_expr(here, expr, refusals)?;
    let number = number_of(here.setting, expr);
    refuse_out_of_range(bounds, expr.place(), number, refusals);
    Ok(())
}

/// The number that an expression is, where it is a literal or a class value that is one.
pub(crate) fn number_of(setting: Setting<'_>, expr: &Expr) -> Option<i128>
    ensures { result ≡ number_of (spec_in setting.entry) (types_in setting.entry) (view_of expr.now) }
{
    match expr {
        Expr::Name(name, _) => number_in(setting, setting.type_scope(), *name),
        Expr::Qualified(class, name, _, _) => number_in(setting, *class, *name),
        Expr::Literal(value, _) => whole_number(value),
        _ => None,
    }
}

// The number that a class value is in a class.
fn number_in(setting: Setting<'_>, class: Name, name: Name) -> Option<i128>
    ensures { result ≡ number_in (spec_in setting.entry) (types_in setting.entry) name (class_number (spec_in setting.entry) class) }
{
    let meant = setting.table.meaning(class, Ask::ByName(name));
    value_number(meant)
}

fn value_number(meant: Meant<'_>) -> Option<i128>
    ensures { (spec : SpecTree) (class : NameOf) → result ≡ value_number spec class (meant_view meant.entry) }
{
    match meant {
        Meant::One(_, item) => item_number(item),
        Meant::Unknown => None,
        Meant::Ambiguous => None,
    }
}

fn item_number(item: Item<'_>) -> Option<i128>
    ensures { (spec : SpecTree) (class : NameOf) (owner : ℕ) → result ≡ value_number spec class (meant owner (item_view item.entry)) }
{
    match item {
        Item::Value(definition) => literal_number(&definition.value),
        _ => None,
    }
}

fn literal_number(expr: &Box<Expr>) -> Option<i128>
    ensures { (spec : SpecTree) (class : NameOf) → result ≡ literal_number spec class (boxed_view expr.now) }
{
    match expr.as_ref() {
        Expr::Literal(value, _) => whole_number(value),
        _ => None,
    }
}

fn whole_number(value: &Literal) -> Option<i128>
    ensures { (spec : SpecTree) (class : NameOf) (place : PlaceOf) → result ≡ literal_number spec class (literal (literal_view value.now) place) }
{
    match value {
        Literal::Whole(number) => Some(*number),
        Literal::Character(_) => None,
        Literal::Text(_) => None,
        Literal::Quote(_) => None,
        Literal::Bool(_) => None,
        Literal::Nil => None,
    }
}

fn refuse_out_of_range(bounds: Bounds, place: Place, number: Option<i128>, refusals: &mut Refusals)
    ensures { (spec : SpecTree) (class : NameOf) → first_in refusals.new ≡ first_among (first_in refusals.old) (in_range_faults spec class bounds.least bounds.greatest place number) }
{
    match number {
        Some(number) => {
            let fits = is_within(bounds, number);
            refusals.refuse_if(!fits, SpecKind::NoCommonValue, place);
        }
        None => refusals.refuse(SpecKind::LeftOut, place),
    }
}

fn is_within(bounds: Bounds, number: i128) -> bool
    ensures { (spec : SpecTree) (class : NameOf) → result ≡ is_within spec class bounds.least bounds.greatest number }
{
    number >= bounds.least as i128 && number <= bounds.greatest as i128
}

/// The greatest delay: at most the period, where that is known.
pub(crate) fn delay_most(period: Option<i128>) -> u64
    ensures { (spec : SpecTree) (class : NameOf) → result ≡ delay_most spec class period }
{
    match period {
        Some(number) => delay_within(number),
        None => MOST_TICKS,
    }
}

fn delay_within(period: i128) -> u64
    ensures { (spec : SpecTree) (class : NameOf) → result ≡ delay_most spec class (Some period) }
{
    if period < 0 || period > MOST_TICKS as i128 {
        MOST_TICKS
    } else {
        period as u64
    }
}
