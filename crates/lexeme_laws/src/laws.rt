// The laws of the relation. Each is the contract of a function that does nothing.

ghost use Rattle.std.specs.Prelude.{◌≡◌, ◌↔◌, ℕ, ◌+◌, List, take, drop, Ok, Err};
ghost use Rattle.vdm_kinds.specs.declared.part.Part.{Part};
ghost use Rattle.vdm_kinds.specs.declared.spec_fault.SpecFault.{SpecFault};
ghost use Rattle.vdm_lexer.specs.declared.front.Front.TheVariants.{Token};
ghost use Rattle.vdm_lexer.specs.declared.lexeme.Lexeme.{Lexeme};
ghost use Rattle.vdm_lexer.specs.declared.lexeme.LexKind.TheVariants.{Identifier, Reserved, Whole, Sign};
ghost use Rattle.vdm_lexer.specs.Fronts.{front_of};
ghost use Rattle.vdm_lexer.specs.Lexemes.{lexemes};
ghost use Rattle.lexeme_laws.specs.Cuts.{AreLexemesOf, IsFirstFault};
ghost use Rattle.lexeme_laws.specs.Literals.{IsWord};
ghost use Rattle.lexeme_laws.specs.Longest.{IsLongest};
ghost use Rattle.lexeme_laws.specs.Numerals.{IsNumeral};
ghost use Rattle.lexeme_laws.specs.Slices.{IsPutTogether};
ghost use Rattle.lexeme_laws.specs.Tokens.{IsSign};

/// What is read are the lexemes of the text, or its first fault, and nothing else is.
pub fn reading_is_the_relation()
    ensures lexemes { (part : Part) (text : List ℕ) (found : List Lexeme) → (lexemes part text ≡ Ok found) ↔ AreLexemesOf part text found }
    ensures fault { (part : Part) (text : List ℕ) (fault : SpecFault) → (lexemes part text ≡ Err fault) ↔ IsFirstFault part text fault }
{}

/// A text has one list of lexemes or one first fault, and not both.
pub fn one_answer()
    ensures list { (part : Part) (text : List ℕ) (a b : List Lexeme) → AreLexemesOf part text a → AreLexemesOf part text b → a ≡ b }
    ensures fault { (part : Part) (text : List ℕ) (a b : SpecFault) → IsFirstFault part text a → IsFirstFault part text b → a ≡ b }
    ensures either { (part : Part) (text : List ℕ) (found : List Lexeme) (fault : SpecFault)
        → AreLexemesOf part text found → IsFirstFault part text fault → ⊥ }
{}

/// Blanks, comments and the slices of the lexemes put together are the text.
pub fn pieces_are_the_text()
    ensures { (part : Part) (text : List ℕ) (found : List Lexeme) → AreLexemesOf part text found → IsPutTogether text found }
{}

/// Words, numerals and signs are the longest that stand there.
pub fn longest_tokens_are_taken()
    ensures identifiers { (text : List ℕ) (more : ℕ) → front_of text ≡ Token Identifier more → IsLongest IsWord (take (more + 1) text) (drop (more + 1) text) }
    ensures reserved { (text : List ℕ) (more : ℕ) → front_of text ≡ Token Reserved more → IsLongest IsWord (take (more + 1) text) (drop (more + 1) text) }
    ensures numerals { (text : List ℕ) (more : ℕ) → front_of text ≡ Token Whole more → IsLongest IsNumeral (take (more + 1) text) (drop (more + 1) text) }
    ensures signs { (text : List ℕ) (more : ℕ) → front_of text ≡ Token Sign more → IsLongest IsSign (take (more + 1) text) (drop (more + 1) text) }
{}
