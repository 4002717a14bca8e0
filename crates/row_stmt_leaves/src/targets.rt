// Writes what assignments write to.

use crate::leaves::{say_comma, say_name};
use row_notation::say_expr;
use row_words::Line;
use vdm_kinds::Name;
use vdm_names::Names;
use vdm_tree::{Assignment, Target, TargetStep};

/// Writes a target: a variable, and behind it its steps where it has some.
pub fn say_target(line: &mut Line<'_>, names: &Names, target: &Target) {
    match target {
        Target::Name(name, steps, _) => {
            say_name(line, names, *name);
            say_steps(line, names, steps);
        }
        Target::Qualified(class, name, _, steps, _) => {
            say_variable_of(line, names, *class, *name);
            say_steps(line, names, steps);
        }
    }
}

fn say_variable_of(line: &mut Line<'_>, names: &Names, class: Name, name: Name) {
    line.say("of(");
    say_name(line, names, class);
    line.say(", ");
    say_name(line, names, name);
    line.say(")");
}

fn say_steps(line: &mut Line<'_>, names: &Names, steps: &[TargetStep]) {
    for step in steps {
        say_step(line, names, step);
    }
}

fn say_step(line: &mut Line<'_>, names: &Names, step: &TargetStep) {
    match step {
        TargetStep::Field(name, _, _) => {
            line.say(" field ");
            say_name(line, names, *name);
        }
        TargetStep::Element(index, _) => {
            line.say(" at(");
            say_expr(line, names, index);
            line.say(")");
        }
    }
}

/// Writes the assignments of an `atomic`.
pub fn say_assignments(line: &mut Line<'_>, names: &Names, list: &[Assignment]) {
    line.say("[");
    for (index, item) in list.iter().enumerate() {
        say_comma(line, index);
        say_target(line, names, &item.target);
        line.say(" := ");
        say_expr(line, names, &item.value);
    }
    line.say("]");
}
