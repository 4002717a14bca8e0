// The text of a value, by a list of what is still to come: its last piece comes first.

ghost use Rattle.std.specs.Prelude.{◌≡◌, ℕ, ◌++◌, List, [], MatchOption, OnOk, codes};
ghost use Rattle.std.specs.String.{string_bytes};
ghost use Rattle.abstract_syntax.specs.Values.{quote, object, record_of, sequence, value_trees, pair_trees};
ghost use Rattle.report_texts.specs.Values.{boolean_text, value_text, values_text, further_values, pairs_text, further_pairs};
ghost use Rattle.value_text.specs.Coming.{piece_text, pieces_text, whole_text};

use crate::name::name_text;
use crate::piece::Piece;
use crate::quoted::push_character;
use crate::string::{is_string, put_string};
use std::fmt::Write;
use vdm_kinds::{Name, OutOfMemory};
use vdm_names::Names;
use vdm_values::{Node, Value};

/// Appends all that is still to come.
pub(crate) fn finish(
    text: &mut String,
    pieces: &mut Vec<Piece<'_>>,
    names: &Names,
) -> Result<(), OutOfMemory>
    ensures { OnOk result (string_bytes text.new ≡ whole_text names.now (string_bytes text.old) pieces.old.items) }
{
    for turn in 0..u64::MAX {
        let Some(piece) = next(pieces) else {
            return Ok(());
        };
        put(text, pieces, piece, names)?;
    }
    Err(OutOfMemory)
}

// What comes next, if anything does.
fn next<'v>(pieces: &mut Vec<Piece<'v>>) -> Option<Piece<'v>>
    ensures { (names : List (List ℕ)) → MatchOption result (pieces_text names pieces.old.items ≡ [])
        (λ piece. pieces_text names pieces.old.items ≡ piece_text names piece ++ pieces_text names pieces.new.items) }
{
    pieces.pop()
}

// The beginning of a piece goes into the text, and what stands behind it is still to come.
fn put<'v>(
    text: &mut String,
    pieces: &mut Vec<Piece<'v>>,
    piece: Piece<'v>,
    names: &Names,
) -> Result<(), OutOfMemory>
    ensures { OnOk result (whole_text names.now (string_bytes text.new) pieces.new.items
        ≡ whole_text names.now (string_bytes text.old ++ piece_text names.now piece.entry) pieces.old.items) }
{
    match piece {
        Piece::Word(word) => Ok(text.push_str(word)?),
        Piece::One(value) => put_value(text, pieces, value, names),
        Piece::Values(values) => put_values(pieces, values),
        Piece::FurtherValues(values) => put_further_values(text, pieces, values),
        Piece::Pairs(pairs) => put_pairs(text, pieces, pairs),
        Piece::FurtherPairs(pairs) => put_further_pairs(text, pieces, pairs),
    }
}

/// Appends the beginning of a value; what stands behind it is still to come.
pub(crate) fn put_value<'v>(
    text: &mut String,
    pieces: &mut Vec<Piece<'v>>,
    value: &'v Value,
    names: &Names,
) -> Result<(), OutOfMemory>
    ensures { OnOk result (whole_text names.now (string_bytes text.new) pieces.new.items
        ≡ whole_text names.now (string_bytes text.old ++ value_text names.now value.now) pieces.old.items) }
{
    match value.node() {
        Node::Nil => Ok(text.push_str("nil")?),
        Node::Bool(truth) => Ok(text.push_str(boolean_text(*truth))?),
        Node::Int(number) => Ok(write!(text, "{number}")?),
        Node::Char(c) => push_character(text, *c),
        Node::Quote(name) => push_quote(text, *name, names),
        Node::Token(inner) => put_between(text, pieces, "mk_token(", Piece::One(inner), ")"),
        Node::Tuple(parts) => put_between(text, pieces, "mk_(", Piece::Values(parts), ")"),
        Node::Rec {
            class,
            name,
            fields,
        } => put_record(text, pieces, (*class, *name), fields, names),
        Node::Seq(items) => put_sequence(text, pieces, items),
        Node::Set(elements) => put_between(text, pieces, "{", Piece::Values(elements), "}"),
        Node::Map(pairs) => put_between(text, pieces, "{", Piece::Pairs(pairs), "}"),
        Node::Object { number, class } => push_object(text, *class, *number, names),
    }
}

fn boolean_text(truth: bool) -> &'static str
    ensures { result.now ≡ boolean_text truth }
{
    if truth { "true" } else { "false" }
}

// as `<Red>`
fn push_quote(text: &mut String, name: Name, names: &Names) -> Result<(), OutOfMemory>
    ensures { OnOk result (string_bytes text.new ≡ string_bytes text.old ++ value_text names.now (quote name)) }
{
    let name = name_text(names, name);
    Ok(write!(text, "<{name}>")?)
}

// as `C#3`
fn push_object(
    text: &mut String,
    class: Name,
    number: u32,
    names: &Names,
) -> Result<(), OutOfMemory>
    ensures { OnOk result (string_bytes text.new ≡ string_bytes text.old ++ value_text names.now (object number class)) }
{
    let class = name_text(names, class);
    Ok(write!(text, "{class}#{number}")?)
}

// The piece between two words.
fn put_between<'v>(
    text: &mut String,
    pieces: &mut Vec<Piece<'v>>,
    begin: &str,
    piece: Piece<'v>,
    close: &'static str,
) -> Result<(), OutOfMemory>
    ensures text { OnOk result (string_bytes text.new ≡ string_bytes text.old ++ begin.now) }
    ensures pieces { OnOk result ((names : List (List ℕ)) → pieces_text names pieces.new.items
        ≡ piece_text names piece.entry ++ close.now ++ pieces_text names pieces.old.items) }
{
    pieces.push(Piece::Word(close))?;
    pieces.push(piece)?;
    Ok(text.push_str(begin)?)
}

// as ``mk_C`T(1, 2)``
fn put_record<'v>(
    text: &mut String,
    pieces: &mut Vec<Piece<'v>>,
    name: (Name, Name),
    fields: &'v [Value],
    names: &Names,
) -> Result<(), OutOfMemory>
    ensures { OnOk result (whole_text names.now (string_bytes text.new) pieces.new.items
        ≡ whole_text names.now (string_bytes text.old ++ value_text names.now (record_of name.0 name.1 (value_trees fields.now)))
        pieces.old.items) }
{
    let class = name_text(names, name.0);
    let name = name_text(names, name.1);
    write!(text, "mk_{class}`{name}")?;
    put_between(text, pieces, "(", Piece::Values(fields), ")")
}

// as `"abc"` where all items are characters, and as `[1, 2]`
fn put_sequence<'v>(
    text: &mut String,
    pieces: &mut Vec<Piece<'v>>,
    items: &'v [Value],
) -> Result<(), OutOfMemory>
    ensures { OnOk result ((names : List (List ℕ)) → whole_text names (string_bytes text.new) pieces.new.items
        ≡ whole_text names (string_bytes text.old ++ value_text names (sequence (value_trees items.now))) pieces.old.items) }
{
    if is_string(items) {
        put_string(text, items)
    } else {
        put_between(text, pieces, "[", Piece::Values(items), "]")
    }
}

/// The values are still to come.
pub(crate) fn put_values<'v>(
    pieces: &mut Vec<Piece<'v>>,
    values: &'v [Value],
) -> Result<(), OutOfMemory>
    ensures { OnOk result ((names : List (List ℕ)) → pieces_text names pieces.new.items
        ≡ values_text names (value_trees values.now) ++ pieces_text names pieces.old.items) }
{
    match values {
        [first, rest @ ..] => put_some_values(pieces, first, rest),
        [] => Ok(()),
    }
}

fn put_further_values<'v>(
    text: &mut String,
    pieces: &mut Vec<Piece<'v>>,
    values: &'v [Value],
) -> Result<(), OutOfMemory>
    ensures { OnOk result ((names : List (List ℕ)) → whole_text names (string_bytes text.new) pieces.new.items
        ≡ whole_text names (string_bytes text.old ++ further_values names (value_trees values.now)) pieces.old.items) }
{
    let [first, rest @ ..] = values else {
        return Ok(());
    };
    text.push_str(", ")?;
    put_some_values(pieces, first, rest)
}

fn put_some_values<'v>(
    pieces: &mut Vec<Piece<'v>>,
    first: &'v Value,
    rest: &'v [Value],
) -> Result<(), OutOfMemory>
    ensures { OnOk result ((names : List (List ℕ)) → pieces_text names pieces.new.items
        ≡ value_text names first.now ++ further_values names (value_trees rest.now) ++ pieces_text names pieces.old.items) }
{
    pieces.push(Piece::FurtherValues(rest))?;
    Ok(pieces.push(Piece::One(first))?)
}

fn put_pairs<'v>(
    text: &mut String,
    pieces: &mut Vec<Piece<'v>>,
    pairs: &'v [(Value, Value)],
) -> Result<(), OutOfMemory>
    ensures { OnOk result ((names : List (List ℕ)) → whole_text names (string_bytes text.new) pieces.new.items
        ≡ whole_text names (string_bytes text.old ++ pairs_text names (pair_trees pairs.now)) pieces.old.items) }
{
    match pairs {
        [first, rest @ ..] => put_some_pairs(pieces, first, rest),
        [] => Ok(text.push_str("|->")?),
    }
}

fn put_further_pairs<'v>(
    text: &mut String,
    pieces: &mut Vec<Piece<'v>>,
    pairs: &'v [(Value, Value)],
) -> Result<(), OutOfMemory>
    ensures { OnOk result ((names : List (List ℕ)) → whole_text names (string_bytes text.new) pieces.new.items
        ≡ whole_text names (string_bytes text.old ++ further_pairs names (pair_trees pairs.now)) pieces.old.items) }
{
    let [first, rest @ ..] = pairs else {
        return Ok(());
    };
    text.push_str(", ")?;
    put_some_pairs(pieces, first, rest)
}

fn put_some_pairs<'v>(
    pieces: &mut Vec<Piece<'v>>,
    first: &'v (Value, Value),
    rest: &'v [(Value, Value)],
) -> Result<(), OutOfMemory>
    ensures { OnOk result ((names : List (List ℕ)) → pieces_text names pieces.new.items
        ≡ value_text names first.now.0 ++ codes " |-> " ++ value_text names first.now.1
        ++ further_pairs names (pair_trees rest.now) ++ pieces_text names pieces.old.items) }
{
    pieces.push(Piece::FurtherPairs(rest))?;
    pieces.push(Piece::One(&first.1))?;
    pieces.push(Piece::Word(" |-> "))?;
    Ok(pieces.push(Piece::One(&first.0))?)
}
