// The command that the words of a command line are.

ghost use Rattle.std.specs.Prelude.{◌≡◌, ◌∷◌, codes, MatchOption, map};
ghost use Rattle.std.specs.String.{string_bytes};
ghost use Rattle.report_texts.specs.Words.{IsCommand, IsNoCommand, asks_log};
ghost use Rattle.vdm_cli.specs.Commands.{command_view};

use crate::chosen::Chosen;
use vdm_kinds::Limits;

/// A command.
#[derive(Clone, Copy)]
pub enum Command<'w> {
    /// To read the specification alone.
    Check,
    /// To run an expression behind it.
    Run {
        /// The text of the expression, as it stands.
        text: &'w String,
        /// How the run is bounded.
        limits: Limits,
        /// Whether the log is asked for.
        log: bool,
    },
}

impl Command<'_> {
    /// Whether the log is asked for.
    pub fn asks_log(self) -> bool
        ensures { result ≡ asks_log (command_view self.entry) }
    {
        match self {
            Command::Check => false,
            Command::Run {
                text: _,
                limits: _,
                log,
            } => log,
        }
    }
}

/// The command that the words behind the program's name are: `check` alone; or `run`, one more word, and then options. None
/// where they are no command.
pub fn command_of(words: &[String]) -> Option<Command<'_>>
    ensures { MatchOption result (IsNoCommand (map string_bytes words.now)) (λ command. IsCommand (map string_bytes words.now) (command_view command)) }
{
    let (first, others) = words.split_first()?;
    match first.as_str() {
        "check" if others.is_empty() => Some(Command::Check),
        "run" => run_of(others),
        _ => None,
    }
}

/// The command to run the text that is the first of these words, with the options behind it.
fn run_of(words: &[String]) -> Option<Command<'_>>
    ensures { MatchOption result (IsNoCommand (codes "run" ∷ map string_bytes words.now))
        (λ command. IsCommand (codes "run" ∷ map string_bytes words.now) (command_view command)) }
{
    let (text, options) = words.split_first()?;
    let chosen = Chosen::of(options)?;
    Some(Command::Run {
        text,
        limits: chosen.limits(),
        log: chosen.asks_log(),
    })
}
