// Forms: `any`, `nothing`, or alternatives with `|` between each two.

use row_words::Line;
use type_forms::{Alt, Form, Node};
use vdm_kinds::Name;
use vdm_names::Names;

/// What is still to be said.
#[derive(Clone, Copy)]
enum Piece<'f> {
    Form(&'f Form),
    Alternative(&'f Alt),
    /// The alternatives behind one.
    Alternatives(&'f [Alt]),
    /// The parts of a tuple behind one.
    Parts(&'f [Form]),
    /// What stands between the keys and the values of a map.
    To,
    Close,
}

/// Says a form.
pub(crate) fn say_form(line: &mut Line<'_>, names: &Names, form: &Form) {
    let mut left = Vec::new(line.alloc());
    line.put(&mut left, Piece::Form(form));
    for _turn in 0..u64::MAX {
        let Some(piece) = left.pop() else { break };
        say_piece(line, names, &mut left, piece);
    }
}

fn say_piece<'f>(line: &mut Line<'_>, names: &Names, left: &mut Vec<Piece<'f>>, piece: Piece<'f>) {
    match piece {
        Piece::Form(form) => say_node(line, left, form),
        Piece::Alternative(alternative) => say_alternative(line, names, left, alternative),
        Piece::Alternatives(alternatives) => say_alternatives(line, left, alternatives),
        Piece::Parts(parts) => say_parts(line, left, parts),
        Piece::To => line.say(") to ("),
        Piece::Close => line.say(")"),
    }
}

fn say_node<'f>(line: &mut Line<'_>, left: &mut Vec<Piece<'f>>, form: &'f Form) {
    match form.node() {
        Node::Any => line.say("any"),
        Node::Nothing => line.say("nothing"),
        Node::OneOf(alternatives) => {
            if let [first, others @ ..] = alternatives.as_slice() {
                line.put(left, Piece::Alternatives(others));
                line.put(left, Piece::Alternative(first));
            }
        }
    }
}

fn say_alternatives<'f>(line: &mut Line<'_>, left: &mut Vec<Piece<'f>>, alternatives: &'f [Alt]) {
    if let [first, others @ ..] = alternatives {
        line.say(" | ");
        line.put(left, Piece::Alternatives(others));
        line.put(left, Piece::Alternative(first));
    }
}

fn say_parts<'f>(line: &mut Line<'_>, left: &mut Vec<Piece<'f>>, parts: &'f [Form]) {
    if let [first, others @ ..] = parts {
        line.say(", ");
        line.put(left, Piece::Parts(others));
        line.put(left, Piece::Form(first));
    }
}

fn say_alternative<'f>(
    line: &mut Line<'_>,
    names: &Names,
    left: &mut Vec<Piece<'f>>,
    alternative: &'f Alt,
) {
    match alternative {
        Alt::Nil => line.say("nil"),
        Alt::Bool => line.say("bool"),
        Alt::Number => line.say("number"),
        Alt::Character => line.say("char"),
        Alt::Token => line.say("token"),
        Alt::Quote(name) => say_quote(line, names, *name),
        Alt::Record { class, name } => say_record(line, names, *class, *name),
        Alt::Object(class) => say_object(line, names, *class),
        Alt::Named { class, name } => say_type(line, names, *class, *name),
        Alt::Tuple(parts) => say_tuple(line, left, parts.as_slice()),
        Alt::Seq(items) => say_seq(line, left, items),
        Alt::Set(elements) => say_set(line, left, elements),
        Alt::Map(keys, values) => say_map(line, left, keys, values),
    }
}

fn say_tuple<'f>(line: &mut Line<'_>, left: &mut Vec<Piece<'f>>, parts: &'f [Form]) {
    line.say("mk_(");
    line.put(left, Piece::Close);
    if let [first, others @ ..] = parts {
        line.put(left, Piece::Parts(others));
        line.put(left, Piece::Form(first));
    }
}

fn say_seq<'f>(line: &mut Line<'_>, left: &mut Vec<Piece<'f>>, items: &'f Form) {
    line.say("seq of (");
    line.put(left, Piece::Close);
    line.put(left, Piece::Form(items));
}

fn say_set<'f>(line: &mut Line<'_>, left: &mut Vec<Piece<'f>>, elements: &'f Form) {
    line.say("set of (");
    line.put(left, Piece::Close);
    line.put(left, Piece::Form(elements));
}

fn say_map<'f>(line: &mut Line<'_>, left: &mut Vec<Piece<'f>>, keys: &'f Form, values: &'f Form) {
    line.say("map (");
    line.put(left, Piece::Close);
    line.put(left, Piece::Form(values));
    line.put(left, Piece::To);
    line.put(left, Piece::Form(keys));
}

fn say_quote(line: &mut Line<'_>, names: &Names, name: Name) {
    line.say("<");
    say_name(line, names, name);
    line.say(">");
}

fn say_record(line: &mut Line<'_>, names: &Names, class: Name, name: Name) {
    line.say("record ");
    say_type(line, names, class, name);
}

fn say_object(line: &mut Line<'_>, names: &Names, class: Name) {
    line.say("object ");
    say_name(line, names, class);
}

fn say_type(line: &mut Line<'_>, names: &Names, class: Name, name: Name) {
    say_name(line, names, class);
    line.say("`");
    say_name(line, names, name);
}

fn say_name(line: &mut Line<'_>, names: &Names, name: Name) {
    line.say(names.text(name).unwrap_or(""));
}
