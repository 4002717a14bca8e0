// Writes a tree: a node as its word, and its parts in round brackets with commas between them; a list in square brackets.
// What is left out is `_`. There is no recursion: what is still to come stands on a stack.

use crate::leaves::{say_literal, say_name, say_names, say_type_name};
use expr_tree::{
    Bind, Branch, Case, Defined, Expr, FieldValue, Maplet, MapletPattern, Pattern, TypeExpr,
};
use row_nodes::{Node, Part, expr_node, pattern_node, type_node};
use row_words::Line;
use vdm_names::Names;

/// Writes a type.
pub fn say_type(line: &mut Line<'_>, names: &Names, tree: &TypeExpr) {
    Writer::write(line, names, type_node(tree));
}

/// Writes a pattern.
pub fn say_pattern(line: &mut Line<'_>, names: &Names, tree: &Pattern) {
    Writer::write(line, names, pattern_node(tree));
}

/// Writes an expression.
pub fn say_expr(line: &mut Line<'_>, names: &Names, tree: &Expr) {
    Writer::write(line, names, expr_node(tree));
}

// What is still to be written, the next last.
#[derive(Drop)]
struct Writer<'t> {
    waiting: Vec<Part<'t>>,
}

impl<'t> Writer<'t> {
    // Writes a node.
    fn write(line: &mut Line<'_>, names: &Names, node: Node<'t>) {
        let mut writer = Writer {
            waiting: Vec::new(line.alloc()),
        };
        writer.spread(line, node);
        for _ in 0..u64::MAX {
            let Some(part) = writer.waiting.pop() else {
                break;
            };
            writer.part(line, names, part);
        }
    }

    // The part comes next.
    fn put(&mut self, line: &mut Line<'_>, part: Part<'t>) {
        line.put(&mut self.waiting, part);
    }

    // The parts come next, in this order.
    fn put_two(&mut self, line: &mut Line<'_>, first: Part<'t>, second: Part<'t>) {
        self.put(line, second);
        self.put(line, first);
    }

    // The parts come next, with this between them.
    fn put_joined(
        &mut self,
        line: &mut Line<'_>,
        first: Part<'t>,
        between: &'static str,
        second: Part<'t>,
    ) {
        self.put(line, second);
        self.put_two(line, first, Part::Text(between));
    }

    // Says the word of a node; its parts come next.
    fn spread(&mut self, line: &mut Line<'_>, node: Node<'t>) {
        line.say(node.word);
        if let Part::None = node.first {
            return;
        }
        if node.word.is_empty() {
            return self.put(line, node.first);
        }
        line.say("(");
        self.put(line, Part::Text(")"));
        self.further(line, node.fourth);
        self.further(line, node.third);
        self.further(line, node.second);
        self.put(line, node.first);
    }

    // A part that is no first one.
    fn further(&mut self, line: &mut Line<'_>, part: Part<'t>) {
        if let Part::None = part {
            return;
        }
        self.put_two(line, Part::Text(", "), part);
    }

    fn part(&mut self, line: &mut Line<'_>, names: &Names, part: Part<'t>) {
        match part {
            Part::None => {}
            Part::Text(text) => line.say(text),
            Part::Name(name) => say_name(line, names, name),
            Part::Named(name) => say_type_name(line, names, name),
            Part::Number(number) => line.show_bare(&number),
            Part::Literal(literal) => say_literal(line, names, literal),
            Part::Expr(tree) => self.spread(line, expr_node(tree)),
            Part::Pattern(tree) => self.spread(line, pattern_node(tree)),
            Part::Type(tree) => self.spread(line, type_node(tree)),
            _ => self.list(line, names, part),
        }
    }

    fn list(&mut self, line: &mut Line<'_>, names: &Names, part: Part<'t>) {
        match part {
            Part::Maybe(Some(tree)) => self.spread(line, expr_node(tree)),
            Part::Maybe(None) => line.say("_"),
            Part::ExprAt(list, index) => self.expr_at(line, list, index),
            Part::PatternAt(list, index) => self.pattern_at(line, list, index),
            Part::Bind(bind) => self.bind(line, bind),
            Part::Names(list) => say_names(line, names, list),
            _ => {
                line.say("[");
                self.put(line, Part::Text("]"));
                self.items(line, part);
            }
        }
    }

    fn expr_at(&mut self, line: &mut Line<'_>, list: &'t Vec<Expr>, index: usize) {
        if let Some(tree) = list.as_slice().get(index) {
            self.spread(line, expr_node(tree));
        }
    }

    fn pattern_at(&mut self, line: &mut Line<'_>, list: &'t Vec<Pattern>, index: usize) {
        if let Some(tree) = list.as_slice().get(index) {
            self.spread(line, pattern_node(tree));
        }
    }

    // Patterns, and the set that they go over.
    fn bind(&mut self, line: &mut Line<'_>, bind: &'t Bind) {
        self.put_joined(
            line,
            Part::Patterns(&bind.patterns),
            " in ",
            Part::Expr(&bind.set),
        );
    }

    // The items of a list come next.
    fn items(&mut self, line: &mut Line<'_>, part: Part<'t>) {
        match part {
            Part::Exprs(list) => self.exprs(line, list),
            Part::Patterns(list) => self.patterns(line, list),
            Part::Types(list) => self.types(line, list),
            Part::Maplets(list) => self.maplets(line, list),
            Part::MapletPatterns(list) => self.maplet_patterns(line, list),
            Part::Fields(list) => self.fields(line, list),
            Part::Definitions(list) => self.definitions(line, list),
            Part::Branches(list) => self.branches(line, list),
            Part::Cases(list) => self.cases(line, list),
            Part::Binds(list) => self.binds(line, list),
            _ => {}
        }
    }

    // What stands before the item of this number comes next.
    fn comma(&mut self, line: &mut Line<'_>, index: usize) {
        if index > 0 {
            self.put(line, Part::Text(", "));
        }
    }

    fn exprs(&mut self, line: &mut Line<'_>, list: &'t Vec<Expr>) {
        for index in (0..list.len()).rev() {
            self.put(line, Part::ExprAt(list, index));
            self.comma(line, index);
        }
    }

    fn patterns(&mut self, line: &mut Line<'_>, list: &'t Vec<Pattern>) {
        for index in (0..list.len()).rev() {
            self.put(line, Part::PatternAt(list, index));
            self.comma(line, index);
        }
    }

    fn types(&mut self, line: &mut Line<'_>, list: &'t [TypeExpr]) {
        for index in (0..list.len()).rev() {
            self.put(line, Part::Type(&list[index]));
            self.comma(line, index);
        }
    }

    fn maplets(&mut self, line: &mut Line<'_>, list: &'t [Maplet]) {
        for index in (0..list.len()).rev() {
            let item = &list[index];
            self.put_joined(
                line,
                Part::Expr(&item.key),
                " |-> ",
                Part::Expr(&item.value),
            );
            self.comma(line, index);
        }
    }

    fn maplet_patterns(&mut self, line: &mut Line<'_>, list: &'t [MapletPattern]) {
        for index in (0..list.len()).rev() {
            let item = &list[index];
            self.put_joined(
                line,
                Part::Pattern(&item.key),
                " |-> ",
                Part::Pattern(&item.value),
            );
            self.comma(line, index);
        }
    }

    fn fields(&mut self, line: &mut Line<'_>, list: &'t [FieldValue]) {
        for index in (0..list.len()).rev() {
            let item = &list[index];
            self.put_joined(
                line,
                Part::Name(item.name),
                " |-> ",
                Part::Expr(&item.value),
            );
            self.comma(line, index);
        }
    }

    fn definitions(&mut self, line: &mut Line<'_>, list: &'t [Defined]) {
        for index in (0..list.len()).rev() {
            self.definition(line, &list[index]);
            self.comma(line, index);
        }
    }

    fn definition(&mut self, line: &mut Line<'_>, item: &'t Defined) {
        self.put_two(line, Part::Text(" = "), Part::Expr(&item.value));
        if let Some(declared) = &item.declared {
            self.put_two(line, Part::Text(": "), Part::Type(declared));
        }
        self.put(line, Part::Pattern(&item.pattern));
    }

    fn branches(&mut self, line: &mut Line<'_>, list: &'t [Branch]) {
        for index in (0..list.len()).rev() {
            let item = &list[index];
            self.put_joined(
                line,
                Part::Expr(&item.condition),
                " -> ",
                Part::Expr(&item.value),
            );
            self.comma(line, index);
        }
    }

    fn cases(&mut self, line: &mut Line<'_>, list: &'t [Case]) {
        for index in (0..list.len()).rev() {
            let item = &list[index];
            self.put_joined(
                line,
                Part::Patterns(&item.patterns),
                " -> ",
                Part::Expr(&item.value),
            );
            self.comma(line, index);
        }
    }

    fn binds(&mut self, line: &mut Line<'_>, list: &'t [Bind]) {
        for index in (0..list.len()).rev() {
            self.put(line, Part::Bind(&list[index]));
            self.comma(line, index);
        }
    }
}
