// The laws of fronts of tokens. Each is the contract of a function that does nothing.

ghost use Rattle.std.specs.Prelude.{◌≡◌, List, take};
ghost use Rattle.vdm_kinds.specs.declared.place.Place.{Place};
ghost use Rattle.grammar_words.specs.Tokens.{Token};
ghost use Rattle.grammar_fronts.specs.declared.front.Front.TheVariants.{TooDeep, Reaches};
ghost use Rattle.grammar_fronts.specs.declared.front.Reach.{Reach};
ghost use Rattle.stmt_fronts.specs.declared.kind.Kind.{Kind as KindOf};
ghost use Rattle.stmt_fronts.specs.Fronts.{IsLongestViable, HasLongest, StandsAt, can_end, front_of};

/// Tokens have one longest front that is viable. What is found reaches as far, and is whole where nothing more has to come in one
/// of the ways; or the place that it gives is one of a token of that front.
pub fn one_longest_front()
    ensures some { (kind : KindOf) (tokens : List Token) → HasLongest kind tokens }
    ensures one { (kind : KindOf) (tokens a b : List Token) → IsLongestViable kind tokens a → IsLongestViable kind tokens b → a ≡ b }
    ensures reached { (kind : KindOf) (tokens : List Token) (reach : Reach) → front_of kind tokens ≡ Reaches reach
        → IsLongestViable kind tokens (take reach.words tokens) }
    ensures whole { (kind : KindOf) (tokens : List Token) (reach : Reach) → front_of kind tokens ≡ Reaches reach
        → reach.whole ≡ can_end kind (take reach.words tokens) }
    ensures deep { (kind : KindOf) (tokens front : List Token) (place : Place) → front_of kind tokens ≡ TooDeep place
        → IsLongestViable kind tokens front → StandsAt front place }
{}
