// The number that a word is.

ghost use Rattle.std.specs.Prelude.{◌≤◌, ℕ, MatchOption};
ghost use Rattle.report_texts.specs.Words.{IsNumber, most_steps};

/// The most digits of a number.
const MOST_DIGITS: usize = 10;

/// The most units of a thread.
const MOST_STEPS: u64 = 100_000_000;

/// The units that a word says.
pub fn units_of(word: &str) -> Option<u64>
    ensures { MatchOption result ((n : ℕ) → IsNumber word.now n → 1 ≤ n → n ≤ most_steps → ⊥)
        (λ n. IsNumber word.now n × (1 ≤ n) × (n ≤ most_steps)) }
{
    let units = number_of(word)?;
    if units < 1 || units > MOST_STEPS {
        return None;
    }
    Some(units)
}

/// The number that a word is: none where it has a sign, or too many digits.
fn number_of(word: &str) -> Option<u64>
    ensures { MatchOption result ((n : ℕ) → IsNumber word.now n → ⊥) (IsNumber word.now) }
{
    if word.len() > MOST_DIGITS || word.starts_with('+') {
        return None;
    }
    word.parse().ok()
}
