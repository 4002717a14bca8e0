// Where an expression stands: the name of its class or `-`, and then flags with a comma between each two, or `-`: `object` where
// there is an object, `old` where `x~` may stand, `result` where `RESULT` is a number, and `init`, `pure`, `guard` or `inv`, what
// may be reached.

use class_checks::Reach;
use row_words::Line;
use shared_names::SharedMap;
use type_check::handed::check_scopes::{Locals, Scope};
use type_forms::{Alt, Form};
use vdm_kinds::Name;
use vdm_names::Names;

/// More names than any row has.
const MOST: usize = 1_000_000;

/// The scope that stands next.
pub(crate) fn scope_in(names: &mut Names, line: &mut Line<'_>) -> Scope {
    let class = class_in(names, line);
    let flags = line.word();
    Scope {
        class,
        locals: SharedMap::new(),
        result: result_in(line, flags),
        old: has(flags, "old"),
        object: has(flags, "object"),
        reach: reach_in(flags),
    }
}

fn class_in(names: &mut Names, line: &mut Line<'_>) -> Option<Name> {
    match line.word() {
        "-" => None,
        text => Some(name_of(names, line, text)),
    }
}

fn name_of(names: &mut Names, line: &mut Line<'_>, text: &str) -> Name {
    if names.len() < MOST {
        let name = names.name(text);
        line.made(name, Name::IO)
    } else {
        line.refuse();
        Name::IO
    }
}

fn has(flags: &str, flag: &str) -> bool {
    flags.split(',').any(|found| found == flag)
}

fn reach_in(flags: &str) -> Reach {
    if has(flags, "init") {
        Reach::Init
    } else if has(flags, "pure") {
        Reach::Pure
    } else if has(flags, "guard") {
        Reach::Guard
    } else if has(flags, "inv") {
        Reach::Inv
    } else {
        Reach::Free
    }
}

fn result_in(line: &mut Line<'_>, flags: &str) -> Option<Form> {
    if has(flags, "result") {
        let number = Form::only(line.alloc(), Alt::Number);
        Some(line.made(number, Form::any()))
    } else {
        None
    }
}
