// Writes threads and clauses of synchronisation.

use crate::heads::say_list;
use row_notation::say_expr;
use row_stmt_leaves::say_name;
use row_stmt_notation::say_stmt;
use row_words::Line;
use vdm_names::Names;
use vdm_tree::{Phase, Sync, Thread};

/// Writes the thread of a class.
pub(crate) fn say_thread(line: &mut Line<'_>, names: &Names, thread: &Thread) {
    line.say("thread(");
    match thread {
        Thread::Procedural(body) => say_stmt(line, names, body),
        Thread::Periodic(period, phase, name, _, _) => {
            line.say("periodic(");
            say_expr(line, names, period);
            say_phase(line, names, phase);
            line.say(", ");
            say_name(line, names, *name);
            line.say(")");
        }
    }
    line.say(")");
}

// What stands behind the period, or `_`.
fn say_phase(line: &mut Line<'_>, names: &Names, phase: &Option<Phase>) {
    line.say(", ");
    match phase {
        Some(inner) => {
            line.say("phase(");
            say_expr(line, names, &inner.jitter);
            line.say(", ");
            say_expr(line, names, &inner.delay);
            line.say(", ");
            say_expr(line, names, &inner.offset);
            line.say(")");
        }
        None => line.say("_"),
    }
}

/// Writes a clause of synchronisation.
pub(crate) fn say_clause(line: &mut Line<'_>, names: &Names, clause: &Sync) {
    match clause {
        Sync::Permission(name, _, condition, _) => {
            line.say("per(");
            say_name(line, names, *name);
            line.say(", ");
            say_expr(line, names, condition);
            line.say(")");
        }
        Sync::MutexAll(_) => line.say("mutex(all)"),
        Sync::MutexOf(list, _) => {
            line.say("mutex(");
            say_list(line, names, list);
            line.say(")");
        }
    }
}
