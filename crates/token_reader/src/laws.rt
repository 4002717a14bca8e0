// The laws of lexemes that are read as tokens. Each is the contract of a function that does nothing.

ghost use Rattle.std.specs.Prelude.{◌≡◌, ◌≤◌, ℕ, List, Ok, length};
ghost use Rattle.vdm_kinds.specs.declared.part.Part.{Part};
ghost use Rattle.vdm_lexer.specs.declared.lexeme.Lexeme.{Lexeme as LexemeView};
ghost use Rattle.vdm_lexer.specs.Lexemes.{lexemes};
ghost use Rattle.token_reader.specs.Read.{AreReadable};

/// The lexemes of a text can be read as tokens, and they are few.
pub fn lexemes_are_readable()
    ensures readable { (part : Part) (text : List ℕ) (found : List LexemeView) → lexemes part text ≡ Ok found → AreReadable text found }
    ensures few { (part : Part) (text : List ℕ) (found : List LexemeView) → lexemes part text ≡ Ok found → length found ≤ 4_194_305 }
{}
