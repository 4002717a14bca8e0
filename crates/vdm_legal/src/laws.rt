// The laws of ready questions and legal entries. Each is the contract of a function that does nothing.

ghost use Rattle.std.specs.Prelude.{◌≡◌, List, Some};
ghost use Rattle.abstract_syntax.specs.Classes.{SpecTree};
ghost use Rattle.run_journal.specs.declared.answer.Answer.{Answer};
ghost use Rattle.run_journal.specs.declared.entry.Entry.{Entry};
ghost use Rattle.run_journal.specs.declared.question.Question.{Question};
ghost use Rattle.run_journal.specs.declared.thread.Thread.TheVariants.{Main};
ghost use Rattle.run_journal.specs.Made.{Fits, made};
ghost use Rattle.run_journal.specs.Parts.{object_part};
ghost use Rattle.vdm_legal.specs.AtObject.{IsLegalAtObject};
ghost use Rattle.vdm_legal.specs.Order.{IsNumbered};
ghost use Rattle.vdm_legal.specs.Ready.{IsReady};

/// A question of main that is ready has an answer whose entry is legal at its object, in the order of one lane.
pub fn what_is_ready_is_answered()
    ensures { (spec : SpecTree) (before : List Entry) (question : Question)
        → IsReady spec before question
        → (answer : Answer) × (entry : Entry) × Fits question answer × (made Main question answer ≡ Some entry)
        × IsLegalAtObject spec entry.object (object_part entry.object before) entry.deed
        × IsNumbered spec before entry.object entry.deed }
{}

/// Two entries for one question of main that are both legal at their objects, in the order of one lane, are the same.
pub fn what_is_legal_is_determined()
    ensures { (spec : SpecTree) (before : List Entry) (question : Question) (one other : Answer) (x y : Entry)
        → made Main question one ≡ Some x
        → made Main question other ≡ Some y
        → IsLegalAtObject spec x.object (object_part x.object before) x.deed
        → IsLegalAtObject spec y.object (object_part y.object before) y.deed
        → IsNumbered spec before x.object x.deed
        → IsNumbered spec before y.object y.deed
        → x ≡ y }
{}
