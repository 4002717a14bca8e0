// What the words behind a text name.

use row_words::Line;
use vdm_kinds::{Level, Name, OpRef};
use vdm_names::Names;

/// More names than any row has.
pub(crate) const MOST: usize = 1_000_000;

/// The name that stands next, which is added where it is new.
pub(crate) fn name_in(names: &mut Names, line: &mut Line<'_>) -> Name {
    let text = line.word();
    name_of(names, line, text)
}

/// The name that stands next, or none where `-` does.
pub(crate) fn name_or_none(names: &mut Names, line: &mut Line<'_>) -> Option<Name> {
    match line.word() {
        "-" => None,
        text => Some(name_of(names, line, text)),
    }
}

fn name_of(names: &mut Names, line: &mut Line<'_>, text: &str) -> Name {
    if names.len() < MOST {
        let name = names.name(text);
        line.made(name, Name::IO)
    } else {
        line.refuse();
        Name::IO
    }
}

/// The operation or function that stands next: its class, its name, and the number of its parameters.
pub(crate) fn op_in(names: &mut Names, line: &mut Line<'_>) -> OpRef {
    let class = name_in(names, line);
    let name = name_in(names, line);
    let arity = line.number();
    OpRef { class, name, arity }
}

/// The level of access that stands next.
pub(crate) fn level_in(line: &mut Line<'_>) -> Level {
    match line.word() {
        "private" => Level::Private,
        "protected" => Level::Protected,
        "public" => Level::Public,
        _ => {
            line.refuse();
            Level::Public
        }
    }
}
