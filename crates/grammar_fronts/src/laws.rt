// The laws of fronts. Each is the contract of a function that does nothing.

ghost use Rattle.std.specs.Prelude.{◌≡◌, List, [], ◌++◌};
ghost use Rattle.grammar_words.specs.declared.word.Word.{Word};
ghost use Rattle.grammar_fronts.specs.declared.kind.Kind.{Kind as KindOf};
ghost use Rattle.grammar_fronts.specs.Fronts.{IsLongestViable, fronts};
ghost use Rattle.grammar_fronts.specs.Viable.{IsViable, start};

/// No word is viable for every kind, and a front of viable words is viable.
pub fn fronts_are_viable()
    ensures nothing { (kind : KindOf) → IsViable kind [] }
    ensures fronts { (kind : KindOf) (front rest : List Word) → IsViable kind (front ++ rest) → IsViable kind front }
{}

/// Words have one longest front that is viable: the words that are taken one by one.
pub fn one_longest_front()
    ensures taken { (kind : KindOf) (words : List Word) → IsLongestViable kind words (fronts words (start kind)).front }
    ensures one { (kind : KindOf) (words a b : List Word) → IsLongestViable kind words a → IsLongestViable kind words b → a ≡ b }
{}
