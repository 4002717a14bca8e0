// What may come where something is wanted.

ghost use Rattle.std.specs.Prelude.{◌≡◌};
ghost use Rattle.grammar_fronts.specs.Table as table;
ghost use Rattle.front_tables.specs.View.{turn_views};

use crate::turn::Turn;
use crate::{binds, brackets, operands, patterns, types, words};
use grammar_fronts::Wanted;
use grammar_words::Word;
use vdm_kinds::Sign;

/// What the word does, where it may stand.
#[tactic(auto, using(crate::proofs::Wanting::nothing_more))]
pub fn turn_of(wanted: Wanted, word: Word) -> Option<Turn>
    ensures { turn_views result ≡ table.turn wanted word }
{
    match wanted {
        Wanted::WholeType => types::single_type(word, &[Wanted::BehindType]),
        Wanted::SingleType => types::single_type(word, &[]),
        Wanted::BehindType => types::behind_type(word),
        Wanted::Pattern => patterns::pattern(word, &[]),
        Wanted::BehindPattern => patterns::behind_pattern(word),
        Wanted::InCurlyPattern => patterns::in_curly_pattern(word),
        Wanted::BehindFirstInPattern => patterns::behind_first_in_pattern(word),
        Wanted::InSquarePattern => patterns::in_square_pattern(word),
        Wanted::PatternParts => patterns::pattern_parts(word),
        Wanted::MorePatterns => patterns::more_patterns(word),
        Wanted::MorePatternPairs => patterns::more_pattern_pairs(word),
        Wanted::Expression => operands::expression(word, &[]),
        Wanted::BehindOperand => operands::behind_operand(word),
        Wanted::BehindName => operands::behind_name(word),
        Wanted::BehindClass => operands::behind_class(word),
        Wanted::Parts => operands::parts(word),
        Wanted::MoreExpressions => operands::more_expressions(word),
        Wanted::InCurly => brackets::in_curly(word),
        Wanted::BehindFirstInCurly => brackets::behind_first_in_curly(word),
        Wanted::SecondInCurly => brackets::second_in_curly(word),
        Wanted::BehindFirstPair => brackets::behind_first_pair(word),
        Wanted::MorePairs => brackets::more_pairs(word),
        Wanted::InSquare => brackets::in_square(word),
        Wanted::BehindFirstInSquare => brackets::behind_first_in_square(word),
        Wanted::Arguments => brackets::arguments(word),
        Wanted::BehindFirstArgument => brackets::behind_first_argument(word),
        Wanted::SecondArgument => brackets::second_argument(word),
        Wanted::MoreChanges => brackets::more_changes(word),
        Wanted::MoreNames => brackets::more_names(word),
        Wanted::BehindBound => binds::behind_bound(word),
        Wanted::BehindOnlyBound => binds::behind_only_bound(word),
        Wanted::MoreBinds => binds::more_binds(word),
        Wanted::Condition => binds::condition(word),
        Wanted::BehindLet => binds::behind_let(word),
        Wanted::LocalType => binds::local_type(word),
        Wanted::MoreLocals => binds::more_locals(word),
        Wanted::SuchThat => binds::such_that(word),
        Wanted::Otherwise => binds::otherwise(word),
        Wanted::BehindCase => binds::behind_case(word),
        Wanted::MoreCases => binds::more_cases(word),
        Wanted::NextCase => binds::next_case(word),
        _ => words::alone(wanted, word),
    }
}

/// Whether it need not come.
pub fn is_optional(wanted: Wanted) -> bool
    ensures { result ≡ table.is_optional wanted }
{
    matches!(
        wanted,
        Wanted::BehindType
            | Wanted::BehindPattern
            | Wanted::MorePatterns
            | Wanted::MorePatternPairs
            | Wanted::BehindOperand
            | Wanted::BehindName
            | Wanted::BehindClass
            | Wanted::MoreExpressions
            | Wanted::MorePairs
            | Wanted::MoreChanges
            | Wanted::MoreNames
            | Wanted::MoreBinds
            | Wanted::Condition
            | Wanted::LocalType
            | Wanted::MoreLocals
            | Wanted::SuchThat
    )
}

/// Whether the word there is of a form that the profile leaves out.
pub fn is_left_out_at(wanted: Wanted, word: Word) -> bool
    ensures { result ≡ table.is_left_out_at wanted word }
{
    match wanted {
        Wanted::BehindBound | Wanted::BehindOnlyBound => matches!(word, Word::Colon),
        Wanted::BehindType => matches!(word, Word::Arrow | Word::TotalArrow),
        Wanted::BehindPattern => match word {
            Word::Operator(sign) => matches!(sign, Sign::Union | Sign::MapUnion),
            _ => false,
        },
        Wanted::InOfDef => matches!(word, Word::Comma),
        Wanted::SetOfBind => matches!(word, Word::Seq),
        _ => false,
    }
}
