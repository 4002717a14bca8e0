// The laws of lexemes. Each is the contract of a function that does nothing.

ghost use Rattle.std.specs.Prelude.{◌≡◌, ℕ, ◌==◌, ◌||◌, ◌<◌, ◌≤◌, true, List, [], ◌∷◌, length, codes, Ok};
ghost use Rattle.std.specs.List.{IsAmong};
ghost use Rattle.std.specs.Str.{encode_utf8_all};
ghost use Rattle.vdm_kinds.specs.declared.part.Part.{Part};
ghost use Rattle.vdm_kinds.specs.declared.spec_kind.SpecKind.TheVariants.{LexFault, LeftOut};
ghost use Rattle.unicode_ident.specs.Ident.{is_xid_start, is_xid_continue};
ghost use Rattle.vdm_lexer.specs.declared.lexeme.Lexeme.{Lexeme as LexemeView};
ghost use Rattle.vdm_lexer.specs.declared.lexeme.LexKind.TheVariants.{Identifier, Whole, Character, Text, Quote, Reserved, Sign, End};
ghost use Rattle.vdm_lexer.specs.Characters.{is_letter, is_of_word};
ghost use Rattle.vdm_lexer.specs.Lexemes.{lexemes, lexemes_of};
ghost use Rattle.vdm_lexer.specs.Longest.{IsLongest};
ghost use Rattle.vdm_lexer.specs.Pieces.{begins};
ghost use Rattle.vdm_lexer.specs.Rising.{Rises};
ghost use Rattle.vdm_lexer.specs.Signs.{longest};
ghost use Rattle.vdm_lexer.specs.Spots.{bytes_of};
ghost use Rattle.vdm_lexer.specs.WorkedTexts.{worked, refused, lexeme, one};

/// A text has at most one list of lexemes.
pub fn one_list()
    ensures { (part : Part) (text : List ℕ) (a b : List LexemeView) → lexemes part text ≡ Ok a → lexemes part text ≡ Ok b → a ≡ b }
{}

/// The spans of a text's lexemes rise, each has a byte or more, and the last is the end behind all bytes.
pub fn spans_rise()
    ensures rise { (part : Part) (good : ℕ) (text : List ℕ) (found : List LexemeView)
        → lexemes_of part good text ≡ Ok found → Rises 0 (bytes_of text) found }
    ensures bytes { (text : List ℕ) → bytes_of text ≡ length (encode_utf8_all text) }
{}

/// The sign of a table that is taken is one that the text begins with, and the text begins with none that is longer.
pub fn longest_sign_is_taken()
    ensures longest { (text sign : List ℕ) (table : List (List ℕ)) → IsAmong table sign → begins text sign ≡ true → length sign ≤ longest text table }
    ensures there { (text : List ℕ) (table : List (List ℕ)) → 0 < longest text table → IsLongest text table }
{}

/// Identifiers are those of Unicode, with `'` (39) behind the first character.
pub fn identifiers_are_of_unicode()
    ensures first { (c : ℕ) → is_letter c ≡ is_xid_start c }
    ensures others { (c : ℕ) → is_of_word c ≡ (is_xid_continue c || c == 39) }
{}

/// Texts and what they come to.
pub fn worked_lexemes()
    ensures empty { worked [] ≡ Ok (lexeme End 0 0 ∷ []) }
    ensures fraction { worked (codes "1.5") ≡ refused LeftOut 1 }
    ensures exponent { worked (codes "1e5") ≡ refused LeftOut 1 }
    ensures point { worked (codes "1.") ≡ Ok (lexeme Whole 0 1 ∷ lexeme Sign 1 2 ∷ lexeme End 2 2 ∷ []) }
    ensures slash { worked (codes "1 / 2") ≡ refused LeftOut 3 }
    ensures unclosed { worked (codes " \"ab") ≡ refused LexFault 2 }
    ensures refused_escape { worked (codes "\"\\q\"") ≡ refused LexFault 2 }
    ensures apostrophe { worked (codes "'''") ≡ one Character 3 }
    ensures string { worked (codes "\"a\\\"b\"") ≡ one Text 6 }
    ensures quote { worked (codes "<nat>") ≡ one Quote 5 }
    ensures quote_within { worked (codes "a<b>c") ≡ Ok (lexeme Identifier 0 1 ∷ lexeme Quote 1 4 ∷ lexeme Identifier 4 5 ∷ lexeme End 5 5 ∷ []) }
    ensures at_most { worked (codes "<=") ≡ one Sign 2 }
    ensures longest { worked (codes "<=>") ≡ one Sign 3 }
    ensures required { worked (codes "#required") ≡ Ok (lexeme Sign 0 4 ∷ lexeme Identifier 4 9 ∷ lexeme End 9 9 ∷ []) }
    ensures begin { worked (codes "\\begin{") ≡ refused LexFault 1 }
    ensures comment { worked (codes "a /* x") ≡ refused LexFault 3 }
    ensures word { worked (codes "then") ≡ one Reserved 4 }
    ensures left_out { worked (codes "a ? _") ≡ refused LeftOut 3 }
{}
