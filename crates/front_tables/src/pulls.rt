// How strongly operators pull, and what they do.

ghost use Rattle.std.specs.Prelude.{◌≡◌, ◌≤◌, IsTrue};
ghost use Rattle.vdm_kinds.specs.Signs.{sign_level};
ghost use Rattle.grammar_words.specs.Pulls as pulls;
ghost use Rattle.grammar_fronts.specs.Operands as operands;
ghost use Rattle.grammar_fronts.specs.Turns.{then_wanted};
ghost use Rattle.front_tables.specs.View.{turn_views};

use crate::turn::Turn;
use grammar_fronts::Wanted;
use vdm_kinds::{Grouping, Sign};

/// How strongly a postfix pulls at what stands before it.
pub(crate) const POSTFIX_PULL: u32 = 30;

/// How strongly the sign pulls at what stands behind it.
#[tactic(auto, using(crate::proofs::Levels::level_is_small))]
fn right_pull(sign: Sign) -> u32
    ensures { result ≡ pulls.right_pull sign }
{
    match sign.grouping() {
        Grouping::Left => 2 * sign.level() + 1,
        Grouping::Right | Grouping::Prefix => 2 * sign.level(),
    }
}

/// How strongly the sign pulls at what stands before it.
#[tactic(auto, using(crate::proofs::Levels::level_is_small))]
fn left_pull(sign: Sign) -> u32
    ensures { result ≡ pulls.left_pull sign }
{
    match sign.grouping() {
        Grouping::Left => 2 * sign.level(),
        Grouping::Right => 2 * sign.level() + 1,
        Grouping::Prefix => 0,
    }
}

/// A prefix operator, and what is wanted behind its operand.
fn before(sign: Sign, more: &'static [Wanted]) -> Option<Turn>
    ensures { turn_views result ≡ then_wanted (operands.before sign) more.now }
{
    Some(Turn::Begins {
        pull: right_pull(sign),
        parts: &[Wanted::Expression],
        behind: &[],
        more,
    })
}

/// What a sign does where an expression is wanted, and what is wanted behind its operand.
pub(crate) fn before_operand(sign: Sign, more: &'static [Wanted]) -> Option<Turn>
    ensures { turn_views result ≡ then_wanted (operands.before_operand sign) more.now }
{
    match sign {
        Sign::Plus => before(Sign::Positive, more),
        Sign::Minus => before(Sign::Negative, more),
        Sign::Positive | Sign::Negative => None,
        _ => match sign.grouping() {
            Grouping::Prefix => before(sign, more),
            Grouping::Left | Grouping::Right => None,
        },
    }
}

/// What a sign does behind an operand.
pub(crate) fn between_operands(sign: Sign) -> Option<Turn>
    ensures { turn_views result ≡ operands.between_operands sign }
{
    match sign.grouping() {
        Grouping::Prefix => None,
        Grouping::Left | Grouping::Right => Some(Turn::Joins {
            left: left_pull(sign),
            right: right_pull(sign),
            parts: &[Wanted::Expression],
            behind: &[],
        }),
    }
}
