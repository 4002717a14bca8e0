// Writes a statement: its word, and its parts in round brackets with commas between them; a list in square brackets. What is
// left out is `_`. There is no recursion: what is still to come stands on a stack.

use crate::part::Part;
use row_notation::{say_expr, say_pattern};
use row_stmt_leaves::{
    say_assignments, say_bind, say_declared, say_definitions, say_given, say_name, say_patterns,
    say_target,
};
use row_words::Line;
use vdm_names::Names;
use vdm_tree::{Handler, Stmt, StmtBranch, StmtCase};

/// Writes a statement.
pub fn say_stmt(line: &mut Line<'_>, names: &Names, tree: &Stmt) {
    let mut writer = Writer {
        waiting: Vec::new(line.alloc()),
    };
    writer.stmt(line, tree);
    for _ in 0..u64::MAX {
        let Some(part) = writer.waiting.pop() else {
            break;
        };
        writer.part(line, names, part);
    }
}

// What is still to be written, the next last.
#[derive(Drop)]
pub(crate) struct Writer<'t> {
    waiting: Vec<Part<'t>>,
}

impl<'t> Writer<'t> {
    // The part comes next.
    fn put(&mut self, line: &mut Line<'_>, part: Part<'t>) {
        line.put(&mut self.waiting, part);
    }

    // Says the word of a statement; its parts come next, with commas between them, in round brackets.
    pub(crate) fn node(&mut self, line: &mut Line<'_>, word: &str, parts: &[Part<'t>]) {
        line.say(word);
        line.say("(");
        self.put(line, Part::Text(")"));
        for index in (0..parts.len()).rev() {
            self.put(line, parts[index]);
            self.comma(line, index);
        }
    }

    // What stands before the item of this number comes next.
    fn comma(&mut self, line: &mut Line<'_>, index: usize) {
        if index > 0 {
            self.put(line, Part::Text(", "));
        }
    }

    // The two come next, with an arrow between them.
    fn put_pair(
        &mut self,
        line: &mut Line<'_>,
        first: Part<'t>,
        arrow: &'static str,
        second: Part<'t>,
    ) {
        self.put(line, second);
        self.put(line, Part::Text(arrow));
        self.put(line, first);
    }

    fn part(&mut self, line: &mut Line<'_>, names: &Names, part: Part<'t>) {
        match part {
            Part::Stmt(tree) => self.stmt(line, tree),
            Part::Maybe(Some(tree)) => self.stmt(line, tree),
            Part::Maybe(None) => line.say("_"),
            Part::Stmts(list) => self.stmts(line, list),
            Part::Branches(list) => self.branches(line, list),
            Part::Cases(list) => self.cases(line, list),
            Part::Handlers(list) => self.handlers(line, list),
            _ => say_leaf(line, names, part),
        }
    }

    fn stmts(&mut self, line: &mut Line<'_>, list: &'t [Stmt]) {
        line.say("[");
        self.put(line, Part::Text("]"));
        for index in (0..list.len()).rev() {
            self.put(line, Part::Stmt(&list[index]));
            self.comma(line, index);
        }
    }

    fn branches(&mut self, line: &mut Line<'_>, list: &'t [StmtBranch]) {
        line.say("[");
        self.put(line, Part::Text("]"));
        for index in (0..list.len()).rev() {
            let item = &list[index];
            self.put_pair(
                line,
                Part::Expr(&item.condition),
                " -> ",
                Part::Stmt(&item.body),
            );
            self.comma(line, index);
        }
    }

    fn cases(&mut self, line: &mut Line<'_>, list: &'t [StmtCase]) {
        line.say("[");
        self.put(line, Part::Text("]"));
        for index in (0..list.len()).rev() {
            let item = &list[index];
            self.put_pair(
                line,
                Part::Patterns(&item.patterns),
                " -> ",
                Part::Stmt(&item.body),
            );
            self.comma(line, index);
        }
    }

    fn handlers(&mut self, line: &mut Line<'_>, list: &'t [Handler]) {
        line.say("[");
        self.put(line, Part::Text("]"));
        for index in (0..list.len()).rev() {
            let item = &list[index];
            self.put_pair(
                line,
                Part::Pattern(&item.pattern),
                " |-> ",
                Part::Stmt(&item.body),
            );
            self.comma(line, index);
        }
    }
}

// What has no statement in it.
fn say_leaf(line: &mut Line<'_>, names: &Names, part: Part<'_>) {
    match part {
        Part::Text(text) => line.say(text),
        Part::Name(name) => say_name(line, names, name),
        Part::Expr(tree) => say_expr(line, names, tree),
        Part::Given(given) => say_given(line, names, given),
        Part::Pattern(tree) => say_pattern(line, names, tree),
        Part::Patterns(list) => say_patterns(line, names, list),
        Part::Bind(bind) => say_bind(line, names, bind),
        Part::Definitions(list) => say_definitions(line, names, list),
        Part::Target(target) => say_target(line, names, target),
        Part::Assignments(list) => say_assignments(line, names, list),
        Part::Declared(list) => say_declared(line, names, list),
        _ => {}
    }
}
