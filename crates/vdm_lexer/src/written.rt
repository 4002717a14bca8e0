// The words and signs of the language: the one table that the definitions and the code read, each row with its kind. It
// stands in three constants, since one of all rows is too long for the borrow checker.

ghost use Rattle.std.specs.Prelude.{◌≡◌, map};
ghost use Rattle.vdm_lexer.specs.Signs.{longest, sign_length};
ghost use Rattle.vdm_lexer.specs.Written.{kind_in, words, early_words, late_words, signs, sign_texts};

use crate::piece::{begins, is_text};

/// What a text of the table is.
#[derive(Clone, Copy, Debug)]
pub enum WrittenKind {
    /// A reserved word.
    Reserved,
    /// A word or a sign of a form that is left out of the language.
    LeftOut,
    Sign,
}

/// The words that begin with a letter up to L.
pub const WORDS_TO_L: [(&[u8], WrittenKind); 62] = [
    (b"abs", WrittenKind::Reserved),
    (b"all", WrittenKind::Reserved),
    (b"always", WrittenKind::Reserved),
    (b"and", WrittenKind::Reserved),
    (b"async", WrittenKind::LeftOut),
    (b"atomic", WrittenKind::Reserved),
    (b"be", WrittenKind::Reserved),
    (b"bool", WrittenKind::Reserved),
    (b"by", WrittenKind::Reserved),
    (b"card", WrittenKind::Reserved),
    (b"cases", WrittenKind::Reserved),
    (b"char", WrittenKind::Reserved),
    (b"class", WrittenKind::Reserved),
    (b"comp", WrittenKind::Reserved),
    (b"compose", WrittenKind::LeftOut),
    (b"conc", WrittenKind::Reserved),
    (b"cycles", WrittenKind::LeftOut),
    (b"dcl", WrittenKind::Reserved),
    (b"def", WrittenKind::Reserved),
    (b"definitions", WrittenKind::LeftOut),
    (b"dinter", WrittenKind::Reserved),
    (b"div", WrittenKind::Reserved),
    (b"dlmodule", WrittenKind::LeftOut),
    (b"do", WrittenKind::Reserved),
    (b"dom", WrittenKind::Reserved),
    (b"dunion", WrittenKind::Reserved),
    (b"duration", WrittenKind::LeftOut),
    (b"elems", WrittenKind::Reserved),
    (b"else", WrittenKind::Reserved),
    (b"elseif", WrittenKind::Reserved),
    (b"end", WrittenKind::Reserved),
    (b"eq", WrittenKind::LeftOut),
    (b"error", WrittenKind::Reserved),
    (b"errs", WrittenKind::LeftOut),
    (b"exists", WrittenKind::Reserved),
    (b"exists1", WrittenKind::Reserved),
    (b"exit", WrittenKind::Reserved),
    (b"exports", WrittenKind::LeftOut),
    (b"ext", WrittenKind::LeftOut),
    (b"false", WrittenKind::Reserved),
    (b"floor", WrittenKind::LeftOut),
    (b"for", WrittenKind::Reserved),
    (b"forall", WrittenKind::Reserved),
    (b"functions", WrittenKind::Reserved),
    (b"hd", WrittenKind::Reserved),
    (b"if", WrittenKind::Reserved),
    (b"imports", WrittenKind::LeftOut),
    (b"in", WrittenKind::Reserved),
    (b"inds", WrittenKind::Reserved),
    (b"inmap", WrittenKind::Reserved),
    (b"instance", WrittenKind::Reserved),
    (b"int", WrittenKind::Reserved),
    (b"inter", WrittenKind::Reserved),
    (b"inv", WrittenKind::Reserved),
    (b"inverse", WrittenKind::Reserved),
    (b"iota", WrittenKind::Reserved),
    (b"is", WrittenKind::Reserved),
    (b"isofbaseclass", WrittenKind::Reserved),
    (b"isofclass", WrittenKind::Reserved),
    (b"lambda", WrittenKind::LeftOut),
    (b"len", WrittenKind::Reserved),
    (b"let", WrittenKind::Reserved),
];

/// The words that begin with a later letter.
pub const WORDS_FROM_M: [(&[u8], WrittenKind); 78] = [
    (b"map", WrittenKind::Reserved),
    (b"measure", WrittenKind::Reserved),
    (b"merge", WrittenKind::Reserved),
    (b"mod", WrittenKind::Reserved),
    (b"module", WrittenKind::LeftOut),
    (b"mu", WrittenKind::Reserved),
    (b"munion", WrittenKind::Reserved),
    (b"mutex", WrittenKind::Reserved),
    (b"narrow_", WrittenKind::LeftOut),
    (b"nat", WrittenKind::Reserved),
    (b"nat1", WrittenKind::Reserved),
    (b"new", WrittenKind::Reserved),
    (b"nil", WrittenKind::Reserved),
    (b"not", WrittenKind::Reserved),
    (b"of", WrittenKind::Reserved),
    (b"operations", WrittenKind::Reserved),
    (b"or", WrittenKind::Reserved),
    (b"ord", WrittenKind::LeftOut),
    (b"others", WrittenKind::Reserved),
    (b"per", WrittenKind::Reserved),
    (b"periodic", WrittenKind::Reserved),
    (b"post", WrittenKind::Reserved),
    (b"power", WrittenKind::Reserved),
    (b"pre", WrittenKind::Reserved),
    (b"private", WrittenKind::Reserved),
    (b"protected", WrittenKind::Reserved),
    (b"psubset", WrittenKind::Reserved),
    (b"public", WrittenKind::Reserved),
    (b"pure", WrittenKind::LeftOut),
    (b"rat", WrittenKind::LeftOut),
    (b"real", WrittenKind::LeftOut),
    (b"rem", WrittenKind::Reserved),
    (b"responsibility", WrittenKind::Reserved),
    (b"RESULT", WrittenKind::Reserved),
    (b"return", WrittenKind::Reserved),
    (b"reverse", WrittenKind::LeftOut),
    (b"rng", WrittenKind::Reserved),
    (b"samebaseclass", WrittenKind::Reserved),
    (b"sameclass", WrittenKind::Reserved),
    (b"self", WrittenKind::Reserved),
    (b"seq", WrittenKind::Reserved),
    (b"seq1", WrittenKind::Reserved),
    (b"set", WrittenKind::Reserved),
    (b"set1", WrittenKind::LeftOut),
    (b"skip", WrittenKind::Reserved),
    (b"specified", WrittenKind::Reserved),
    (b"sporadic", WrittenKind::LeftOut),
    (b"st", WrittenKind::Reserved),
    (b"start", WrittenKind::Reserved),
    (b"startlist", WrittenKind::Reserved),
    (b"state", WrittenKind::LeftOut),
    (b"static", WrittenKind::Reserved),
    (b"stop", WrittenKind::LeftOut),
    (b"stoplist", WrittenKind::LeftOut),
    (b"subclass", WrittenKind::Reserved),
    (b"subset", WrittenKind::Reserved),
    (b"sync", WrittenKind::Reserved),
    (b"system", WrittenKind::LeftOut),
    (b"then", WrittenKind::Reserved),
    (b"thread", WrittenKind::Reserved),
    (b"threadid", WrittenKind::LeftOut),
    (b"time", WrittenKind::Reserved),
    (b"tixe", WrittenKind::Reserved),
    (b"tl", WrittenKind::Reserved),
    (b"to", WrittenKind::Reserved),
    (b"token", WrittenKind::Reserved),
    (b"traces", WrittenKind::LeftOut),
    (b"trap", WrittenKind::Reserved),
    (b"true", WrittenKind::Reserved),
    (b"types", WrittenKind::Reserved),
    (b"undefined", WrittenKind::Reserved),
    (b"union", WrittenKind::Reserved),
    (b"uselib", WrittenKind::LeftOut),
    (b"values", WrittenKind::Reserved),
    (b"variables", WrittenKind::Reserved),
    (b"while", WrittenKind::Reserved),
    (b"with", WrittenKind::Reserved),
    (b"yet", WrittenKind::Reserved),
];

/// The signs.
pub const SIGNS: [(&[u8], WrittenKind); 52] = [
    (b"(", WrittenKind::Sign),
    (b")", WrittenKind::Sign),
    (b"[", WrittenKind::Sign),
    (b"]", WrittenKind::Sign),
    (b"{", WrittenKind::Sign),
    (b"}", WrittenKind::Sign),
    (b",", WrittenKind::Sign),
    (b";", WrittenKind::Sign),
    (b":", WrittenKind::Sign),
    (b"::", WrittenKind::Sign),
    (b":=", WrittenKind::Sign),
    (b"=", WrittenKind::Sign),
    (b"==", WrittenKind::Sign),
    (b"==>", WrittenKind::Sign),
    (b"=>", WrittenKind::Sign),
    (b"<=>", WrittenKind::Sign),
    (b"->", WrittenKind::Sign),
    (b"+>", WrittenKind::Sign),
    (b"<>", WrittenKind::Sign),
    (b"<", WrittenKind::Sign),
    (b"<=", WrittenKind::Sign),
    (b">", WrittenKind::Sign),
    (b">=", WrittenKind::Sign),
    (b"<:", WrittenKind::Sign),
    (b"<-:", WrittenKind::Sign),
    (b":>", WrittenKind::Sign),
    (b":->", WrittenKind::Sign),
    (b"+", WrittenKind::Sign),
    (b"++", WrittenKind::Sign),
    (b"-", WrittenKind::Sign),
    (b"*", WrittenKind::Sign),
    (b"**", WrittenKind::Sign),
    (b"\\", WrittenKind::Sign),
    (b"^", WrittenKind::Sign),
    (b"&", WrittenKind::Sign),
    (b"|", WrittenKind::Sign),
    (b"||", WrittenKind::Sign),
    (b"|->", WrittenKind::Sign),
    (b".", WrittenKind::Sign),
    (b".#", WrittenKind::Sign),
    (b"...", WrittenKind::Sign),
    (b"~", WrittenKind::Sign),
    (b"`", WrittenKind::Sign),
    (b"#req", WrittenKind::Sign),
    (b"#act", WrittenKind::Sign),
    (b"#fin", WrittenKind::Sign),
    (b"#active", WrittenKind::Sign),
    (b"#waiting", WrittenKind::Sign),
    (b"/", WrittenKind::LeftOut),
    (b"@", WrittenKind::LeftOut),
    (b"?", WrittenKind::LeftOut),
    (b":-", WrittenKind::LeftOut),
];

/// What a word is in the table.
pub fn word_kind(word: &[char]) -> Option<WrittenKind>
    ensures { result ≡ kind_in word.now words }
{
    match early_kind(word) {
        Some(kind) => Some(kind),
        None => late_kind(word),
    }
}

/// What a sign is in the table.
pub fn sign_kind(sign: &[char]) -> Option<WrittenKind>
    ensures { result ≡ kind_in sign.now signs }
{
    kind_in(sign, &SIGNS)
}

/// How many characters the longest sign of the table has that a text begins with.
pub fn longest_sign(text: &[char]) -> usize
    ensures { result ≡ longest text.now sign_texts }
{
    longest(text, &SIGNS)
}

fn early_kind(word: &[char]) -> Option<WrittenKind>
    ensures { result ≡ kind_in word.now early_words }
{
    kind_in(word, &WORDS_TO_L)
}

fn late_kind(word: &[char]) -> Option<WrittenKind>
    ensures { result ≡ kind_in word.now late_words }
{
    kind_in(word, &WORDS_FROM_M)
}

/// What a text is in the first of these rows that it stands in.
fn kind_in(text: &[char], rows: &[(&[u8], WrittenKind)]) -> Option<WrittenKind>
    ensures { result ≡ kind_in text.now (map (λ row. (row.0.now, row.1)) rows.now) }
{
    for row in rows {
        if is_text(text, row.0) {
            return Some(row.1);
        }
    }
    None
}

/// How many characters the longest text of these rows has that a text begins with.
fn longest(text: &[char], rows: &[(&[u8], WrittenKind)]) -> usize
    ensures { result ≡ longest text.now (map (λ row. row.0.now) rows.now) }
{
    let mut longest = 0;
    for row in rows {
        longest = longest.max(sign_length(text, row.0));
    }
    longest
}

/// How many characters of a text are this sign.
fn sign_length(text: &[char], sign: &[u8]) -> usize
    ensures { result ≡ sign_length text.now sign.now }
{
    if begins(text, sign) { sign.len() } else { 0 }
}
