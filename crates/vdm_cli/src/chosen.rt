// What options chose.

ghost use Rattle.std.specs.Prelude.{◌≡◌, Bool, map, MatchOption};
ghost use Rattle.std.specs.String.{string_bytes};
ghost use Rattle.report_texts.specs.Words.{Limits as Asked, Sets};
ghost use Rattle.vdm_cli.specs.Commands.{option_view, limits_view, limits_of, with_option};

use crate::run_option::{RunOption, first_option};
use vdm_kinds::Limits;

/// The units of a thread where no option says how many.
const USUAL_STEPS: u64 = 1_000_000;

/// What options chose so far, each at most once.
#[derive(Clone, Copy)]
pub struct Chosen {
    steps: Option<u64>,
    log: bool,
}

impl Chosen {
    /// What the options choose that words are.
    pub fn of(words: &[String]) -> Option<Chosen>
        ensures { MatchOption result
            ((sets : Asked × Bool) → Sets (map string_bytes words.now) sets.0 sets.1 → ⊥)
            (λ c. Sets (map string_bytes words.now) (limits_of c) c.log) }
    {
        let mut chosen = Chosen {
            steps: None,
            log: false,
        };
        let mut rest = words;
        while !rest.is_empty() {
            let (option, others) = first_option(rest)?;
            chosen = chosen.with(option)?;
            rest = others;
        }
        Some(chosen)
    }

    /// With one option more, which is of no kind that was chosen.
    fn with(self, option: RunOption) -> Option<Chosen>
        ensures { result ≡ with_option self (option_view option) }
    {
        match option {
            RunOption::Steps(steps) => {
                if self.steps.is_some() {
                    return None;
                }
                Some(Chosen {
                    steps: Some(steps),
                    log: self.log,
                })
            }
            RunOption::Log => {
                if self.log {
                    return None;
                }
                Some(Chosen {
                    steps: self.steps,
                    log: true,
                })
            }
        }
    }

    /// The limits of the run; those that no option sets so far have their usual values.
    pub fn limits(self) -> Limits
        ensures { limits_view result ≡ limits_of self }
    {
        Limits {
            lanes: 1,
            slice: 64,
            ticks: 0,
            steps: self.steps.unwrap_or(USUAL_STEPS),
            entries: 1_000_000,
        }
    }

    /// Whether the log is asked for.
    pub fn asks_log(self) -> bool
        ensures { result ≡ self.log }
    {
        self.log
    }
}
