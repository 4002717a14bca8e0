// The law of the tables. It is the contract of a function that does nothing.

ghost use Rattle.std.specs.Prelude.{◌≡◌, true};
ghost use Rattle.std.specs.List.{list_all};
ghost use Rattle.vdm_lexer.specs.Written.{words, signs};
ghost use Rattle.word_reader.specs.Written.{has_word};

/// Each reserved word and each sign that the lexer knows is a word of the grammar.
pub fn all_have_words()
    ensures words { list_all has_word words ≡ true }
    ensures signs { list_all has_word signs ≡ true }
{}
