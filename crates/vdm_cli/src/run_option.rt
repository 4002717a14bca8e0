// An option at the front of words.

ghost use Rattle.std.specs.Prelude.{◌≡◌, ℕ, List, ◌∷◌, codes, map, MatchOption};
ghost use Rattle.std.specs.String.{string_bytes};
ghost use Rattle.report_texts.specs.Words.{RunOption as Asked, with_steps, HasValue, BeginsWith};
ghost use Rattle.vdm_cli.specs.Commands.{option_view};

use crate::number::units_of;

/// An option of `run`.
#[derive(Clone, Copy)]
pub enum RunOption {
    /// So many units for each thread.
    Steps(u64),
    /// The log.
    Log,
}

/// The option that words begin with, and the words behind it.
pub fn first_option(words: &[String]) -> Option<(RunOption, &[String])>
    ensures { MatchOption result
        ((found : Asked × List (List ℕ)) → BeginsWith (map string_bytes words.now) found.0 found.1 → ⊥)
        (λ found. BeginsWith (map string_bytes words.now) (option_view found.0) (map string_bytes found.1.now)) }
{
    match behind_log(words) {
        Some(others) => Some((RunOption::Log, others)),
        None => first_steps(words),
    }
}

/// The units that words begin with, behind their name, and the words behind them.
fn first_steps(words: &[String]) -> Option<(RunOption, &[String])>
    ensures { MatchOption result
        ((n : ℕ) (others : List (List ℕ)) → BeginsWith (map string_bytes words.now) (with_steps n) others → ⊥)
        (λ found. BeginsWith (map string_bytes words.now) (option_view found.0) (map string_bytes found.1.now)) }
{
    let (value, others) = first_value("--steps", words)?;
    Some((RunOption::Steps(units_of(value)?), others))
}

/// The words behind the option that asks for the log.
fn behind_log(words: &[String]) -> Option<&[String]>
    ensures { MatchOption result ((others : List (List ℕ)) → map string_bytes words.now ≡ codes "--log" ∷ others → ⊥)
        (λ others. map string_bytes words.now ≡ codes "--log" ∷ map string_bytes others.now) }
{
    let (first, others) = words.split_first()?;
    if first.as_str() != "--log" {
        return None;
    }
    Some(others)
}

/// The value that words begin with behind a name, as the next word or behind `=` in the same word, and the words behind it.
fn first_value<'w>(name: &str, words: &'w [String]) -> Option<(&'w str, &'w [String])>
    ensures { MatchOption result
        ((found : List ℕ × List (List ℕ)) → HasValue (map string_bytes words.now) name.now found.0 found.1 → ⊥)
        (λ found. HasValue (map string_bytes words.now) name.now found.0.now (map string_bytes found.1.now)) }
{
    let (first, others) = words.split_first()?;
    let behind = first.as_str().strip_prefix(name)?;
    if behind.is_empty() {
        let (value, others) = others.split_first()?;
        return Some((value.as_str(), others));
    }
    Some((behind.strip_prefix('=')?, others))
}
