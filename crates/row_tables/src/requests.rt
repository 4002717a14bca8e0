// `table ASKED TEXT ..`: what is asked of the table of the classes of a text, or the refusal. With no more words `table` asks how
// many classes the text has, and `all-classes` for the names of all. What else there is say the other files; a class of which
// something is asked and that is none is answered by `no class`.

ghost use Rattle.std.specs.Prelude.{◌<◌, ◌^◌, length};
ghost use Rattle.text_answers.specs.Answers.{AreOf};

use crate::asked::MOST;
use crate::classes::{ask_class, ask_class_place, ask_kind, ask_number, ask_visible};
use crate::hosts::ask_hosted;
use crate::members::{ask_named, ask_op, ask_reached, ask_type};
use crate::places::{ask_named_place, ask_op_place};
use crate::said::{say_names, say_written};
use class_grammar::spec_of_tokens;
use row_answers::say_halt;
use row_words::Line;
use spec_table::{ClassTable, table_of};
use vdm_kinds::Part;
use vdm_lexer::{Lexeme, lex};
use vdm_names::Names;
use vdm_tree::{Spec, TypeNames};

/// Answers a request; tells whether the word is the one of this library.
pub fn answer(names: &mut Names, line: &mut Line<'_>, word: &str) -> bool {
    match word {
        "table" => {
            let asked = line.word();
            answer_text(names, line, asked);
            true
        }
        _ => false,
    }
}

fn answer_text(names: &mut Names, line: &mut Line<'_>, asked: &str) {
    let text = line.bytes();
    match lex(line.alloc(), Part::Spec, &text) {
        Ok(lexemes) if names.len() < MOST => answer_lexemes(names, line, asked, &text, &lexemes),
        Ok(_) => line.refuse(),
        Err(halt) => say_halt(line, halt),
    }
}

fn answer_lexemes(
    names: &mut Names,
    line: &mut Line<'_>,
    asked: &str,
    text: &[u8],
    lexemes: &[Lexeme],
)
    requires lexemes { AreOf text.now lexemes.now }
    requires names { length names.old < 2 ^ 31 }
{
    match spec_of_tokens(line.alloc(), text, lexemes, names) {
        Ok(spec) => answer_spec(names, line, asked, spec),
        Err(halt) => say_halt(line, halt),
    }
}

fn answer_spec(names: &mut Names, line: &mut Line<'_>, asked: &str, spec: Spec) {
    match table_of(line.alloc(), spec) {
        Ok(table) => answer_table(names, line, asked, table),
        Err(halt) => say_halt(line, halt),
    }
}

fn answer_table(names: &mut Names, line: &mut Line<'_>, asked: &str, table: ClassTable) {
    match asked {
        "hosted" => ask_hosted(names, line, table),
        _ => answer_whole(names, line, asked, &table),
    }
}

fn answer_whole(names: &mut Names, line: &mut Line<'_>, asked: &str, table: &ClassTable) {
    match asked {
        "table" => say_written(line, table.classes()),
        "all-classes" => say_names(line, names, table.all_classes()),
        "find-type" => ask_type(names, line, table),
        "visible" => ask_visible(names, line, table),
        "reached" => ask_reached(names, line, table),
        "kind" => ask_kind(names, line, table),
        "number" => ask_number(names, line, table),
        "class-place" => ask_class_place(names, line, table),
        _ => answer_member(names, line, asked, table),
    }
}

fn answer_member(names: &mut Names, line: &mut Line<'_>, asked: &str, table: &ClassTable) {
    match asked {
        "find-op" | "find-fn" => ask_op(names, line, asked, table),
        "find-value" | "find-var" => ask_named(names, line, asked, table),
        "op-place" | "fn-place" => ask_op_place(names, line, asked, table),
        "value-place" | "var-place" => ask_named_place(names, line, asked, table),
        _ => ask_class(names, line, asked, table),
    }
}
