// Laws of main. Each is the contract of a function that does nothing.

ghost use Rattle.std.specs.Prelude.{◌≡◌, ◌≢◌, ℕ, true, List, [], ◌∷◌, ◌++◌};
ghost use Rattle.std.specs.List.{AllByRecursion as Each};
ghost use Rattle.abstract_syntax.specs.Classes.{SpecTree};
ghost use Rattle.abstract_syntax.specs.Expressions.{ExprTree};
ghost use Rattle.abstract_syntax.specs.Values.{ValueTree};
ghost use Rattle.report_texts.specs.Values.{is_character};
ghost use Rattle.run_journal.specs.declared.answer.Answer.{Answer};
ghost use Rattle.run_journal.specs.declared.deed.Deed.TheVariants.{Print as Prints};
ghost use Rattle.run_journal.specs.declared.entry.Entry.{Entry};
ghost use Rattle.run_journal.specs.declared.question.Question.TheVariants.{Print};
ghost use Rattle.plans.specs.Plans.{needs, run, meaning};
ghost use Rattle.stmt_meaning.specs.TaskPlans.{plan_of};
ghost use Rattle.node_meaning.specs.Tasks.{Need, needed, spent};
ghost use Rattle.vdm_meaning.specs.Main.{asks, over, main_code, main_plan};
ghost use Rattle.vdm_meaning.specs.Runs.{IsRun};
ghost use Rattle.stmt_meaning.specs.Questions.{of_thread};

/// Main has no need as such, whatever it is answered: it asks questions that entries answer.
pub fn main_has_no_need()
    ensures { (spec : SpecTree) (tree : ExprTree) (answers : List Answer) (units : ℕ) (need : Need)
        → run (meaning (plan_of (of_thread spec)) spent) (main_plan spec tree) answers units ≢ needs (needed need) }
{}

/// Once main is over, further answers change nothing.
pub fn over_stays_over()
    ensures { (names : List (List ℕ)) (spec : SpecTree) (tree : ExprTree) (units : ℕ) (taken more : List Answer)
        → main_code names spec tree units taken ≡ over
        → main_code names spec tree units (taken ++ more) ≡ over }
{}

/// What main prints are characters alone, whatever the names are; and so is what an entry of a run prints.
pub fn main_prints_characters()
    ensures asked { (names : List (List ℕ)) (spec : SpecTree) (tree : ExprTree) (units : ℕ) (answers : List Answer) (text : List ValueTree)
        → main_code names spec tree units answers ≡ asks (Print text)
        → Each (λ (v : ValueTree). is_character v ≡ true) text }
    ensures entered { (names : List (List ℕ)) (spec : SpecTree) (tree : ExprTree) (units : ℕ) (before : List Entry) (entry : Entry)
        (text : List ValueTree)
        → IsRun names spec tree units (before ++ entry ∷ [])
        → entry.deed ≡ Prints text
        → Each (λ (v : ValueTree). is_character v ≡ true) text }
{}
