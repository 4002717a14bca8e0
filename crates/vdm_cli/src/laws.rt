// What follows from the clauses of the top call. Each law is the contract of a function that does nothing.

ghost use Rattle.std.specs.Prelude.{◌≡◌, ◌≢◌, ℕ, List, [], Some, None, IsSome};
ghost use Rattle.abstract_syntax.specs.Classes.{SpecTree};
ghost use Rattle.abstract_syntax.specs.Expressions.{ExprTree};
ghost use Rattle.vdm_kinds.specs.declared.spec_fault.SpecFault.{SpecFault};
ghost use Rattle.text_phases.specs.Phases.{IsAccepted, first_refusal};
ghost use Rattle.vdm_legal.specs.Order.{IsInOrder};
ghost use Rattle.vdm_legal.specs.Finishes.{finish_of};
ghost use Rattle.vdm_meaning.specs.Runs.{IsRun};
ghost use Rattle.report_texts.specs.Words.{Limits, check, IsCommand, IsNoCommand};
ghost use Rattle.vdm_report.specs.declared.end.End.TheVariants.{Checked, Refused, Usage, ReadFault};
ghost use Rattle.vdm_report.specs.Ends.{finish_in};
ghost use Rattle.vdm_cli.specs.Meant.{read_of};
ghost use Rattle.vdm_cli.specs.Headline.{Call, KeepsWords, RunsText, ChecksSpec, Refuses, KeepsJournal, KeepsOutput};
ghost use Rattle.vdm_cli.specs.Following.{IsMeant};

/// The end is the one that is meant, or a write fault or want of memory in its place.
pub fn the_end_is_meant()
    ensures told { (call : Call) (told : List ℕ)
        → KeepsOutput call
        → call.source.before ≡ Some told
        → IsMeant call (read_of told) }
    ensures silent { (call : Call)
        → KeepsOutput call
        → call.source.before ≡ None
        → (spec : List ℕ) × IsMeant call spec }
{}

/// A result or a fault is the one that the journal has.
pub fn the_end_is_the_runs()
    ensures { (call : Call)
        → KeepsOutput call
        → IsSome (finish_in call.report.end)
        → finish_of call.report.journal ≡ finish_in call.report.end }
{}

/// Where both texts are accepted, the journal is a run of their trees with the command's units, in the order of one lane.
pub fn the_journal_is_the_run()
    ensures { (call : Call) (told text : List ℕ) (limits : Limits) (names : List (List ℕ))
        (tree : SpecTree) (expression : ExprTree)
        → KeepsJournal call
        → call.source.before ≡ Some told
        → RunsText call.words text limits
        → IsAccepted told text names tree expression
        → IsRun names tree expression limits.steps call.report.journal × IsInOrder tree call.report.journal }
{}

/// The journal is empty where the words are no command, or `check`; where the texts have a refusal, where the source was not
/// read to its end, and under usage, a refusal, a count of classes and a read fault.
pub fn the_journal_is_empty()
    ensures no_command { (call : Call)
        → KeepsJournal call
        → IsNoCommand call.words
        → call.report.journal ≡ [] }
    ensures check_ { (call : Call)
        → KeepsJournal call
        → IsCommand call.words check
        → call.report.journal ≡ [] }
    ensures no_trees { (call : Call) (told text : List ℕ) (limits : Limits) (fault : SpecFault)
        → KeepsJournal call
        → call.source.before ≡ Some told
        → RunsText call.words text limits
        → first_refusal told text ≡ Some fault
        → call.report.journal ≡ [] }
    ensures unread { (call : Call) (told : List ℕ)
        → KeepsJournal call
        → call.source.before ≡ Some told
        → call.source.after ≢ Some []
        → call.report.journal ≡ [] }
    ensures usage { (call : Call)
        → KeepsWords call
        → KeepsJournal call
        → call.report.end ≡ Usage
        → call.report.journal ≡ [] }
    ensures refused { (call : Call) (fault : SpecFault)
        → KeepsOutput call
        → call.report.end ≡ Refused fault
        → call.report.journal ≡ [] }
    ensures checked { (call : Call) (classes : ℕ)
        → KeepsOutput call
        → call.report.end ≡ Checked classes
        → call.report.journal ≡ [] }
    ensures read_fault { (call : Call)
        → KeepsOutput call
        → call.report.end ≡ ReadFault
        → call.report.journal ≡ [] }
{}

/// Under `check` no run ends.
pub fn a_check_runs_nothing()
    ensures { (call : Call)
        → KeepsJournal call
        → KeepsOutput call
        → IsCommand call.words check
        → IsSome (finish_in call.report.end)
        → ⊥ }
{}

/// A refusal is the first one of the command behind some bytes, also where the source tells nothing.
pub fn a_silent_refusal_is_first()
    ensures { (call : Call) (fault : SpecFault)
        → KeepsOutput call
        → call.source.before ≡ None
        → call.report.end ≡ Refused fault
        → (spec : List ℕ) × Refuses call.words spec fault }
{}

/// The classes that are counted are those of a specification that is accepted and checked, also where the source tells
/// nothing.
pub fn a_silent_count_is_a_checks()
    ensures { (call : Call) (classes : ℕ)
        → KeepsOutput call
        → call.source.before ≡ None
        → call.report.end ≡ Checked classes
        → (spec : List ℕ) × ChecksSpec call.words spec classes }
{}
