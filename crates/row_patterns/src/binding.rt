// `bind V .. P`: the first binding of the last pattern with the last value. The values before it are those of the
// pattern's bracketed expressions. Names of types stand for the record types that are declared, and other names for none.

use crate::asked::Asked;
use patterns::BindList;
use row_desk::Desk;
use row_words::Line;
use vdm_kinds::Name;
use vdm_names::Names;
use vdm_values::Value;

pub(crate) fn answer(desk: &mut Desk, line: &mut Line<'_>) {
    let asked = Asked::read(desk, line);
    match asked.first(line.alloc()) {
        Ok(found) => say_found(line, &desk.names, found),
        Err(halt) => line.stop(halt),
    }
    line.say_names(&desk.names);
}

fn say_found(line: &mut Line<'_>, names: &Names, found: Option<BindList>) {
    match found {
        Some(list) => say_binding(line, names, list.as_slice()),
        None => line.say("none"),
    }
}

fn say_binding(line: &mut Line<'_>, names: &Names, pairs: &[(Name, Value)]) {
    line.say("binding");
    for (name, value) in pairs {
        line.say("; ");
        line.say(names.text(*name).unwrap_or(""));
        line.say(" = ");
        line.show(value);
    }
}
