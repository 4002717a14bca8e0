// How statements are written: the word of each, and its parts.

use crate::part::Part;
use crate::writer::Writer;
use row_words::Line;
use vdm_tree::Stmt;

impl<'t> Writer<'t> {
    /// Says the word of a statement; its parts come next.
    pub(crate) fn stmt(&mut self, line: &mut Line<'_>, tree: &'t Stmt) {
        match tree {
            Stmt::Assign(target, value, _) => {
                self.node(line, "assign", &[Part::Target(target), Part::Expr(value)])
            }
            Stmt::AssignTogether(list, _) => {
                self.node(line, "atomic", &[Part::Assignments(list)])
            }
            Stmt::Call(application, _) => self.node(line, "call", &[Part::Expr(application)]),
            Stmt::Return(value, _) => self.node(line, "return", &[Part::Given(value)]),
            Stmt::Exit(value, _) => self.node(line, "exit", &[Part::Given(value)]),
            Stmt::Start(object, _) => self.node(line, "start", &[Part::Expr(object)]),
            Stmt::StartList(objects, _) => { self.node(line, "startlist", &[Part::Expr(objects)]) }
            Stmt::Skip(_) => line.say("skip"),
            Stmt::Error(_) => line.say("error"),
            _ => self.round_others(line, tree),
        }
    }

    // What stands round other statements.
    fn round_others(&mut self, line: &mut Line<'_>, tree: &'t Stmt) {
        match tree {
            Stmt::Block(declared, inner, _) => self.node(
                line,
                "block",
                &[Part::Declared(declared), Part::Stmts(inner)],
            ),
            Stmt::Parallel(inner, _) => self.node(line, "parallel", &[Part::Stmts(inner)]),
            Stmt::Trap(pattern, handler, body, _) => self.node(
                line,
                "trap",
                &[
                    Part::Pattern(pattern),
                    Part::Stmt(handler),
                    Part::Stmt(body),
                ],
            ),
            Stmt::Tixe(handlers, body, _) => {
                self.node(line, "tixe", &[Part::Handlers(handlers), Part::Stmt(body)])
            }
            Stmt::Always(last, body, _) => {
                self.node(line, "always", &[Part::Stmt(last), Part::Stmt(body)])
            }
            _ => self.deciding(line, tree),
        }
    }

    // What decides which statement is done.
    fn deciding(&mut self, line: &mut Line<'_>, tree: &'t Stmt) {
        match tree {
            Stmt::If(condition, body, branches, other, _) => self.node(
                line,
                "if",
                &[
                    Part::Expr(condition),
                    Part::Stmt(body),
                    Part::Branches(branches),
                    Part::Maybe(other),
                ],
            ),
            Stmt::Cases(subject, cases, others, _) => self.node(
                line,
                "cases",
                &[Part::Expr(subject), Part::Cases(cases), Part::Maybe(others)],
            ),
            _ => self.defining(line, tree),
        }
    }

    // What defines names.
    fn defining(&mut self, line: &mut Line<'_>, tree: &'t Stmt) {
        match tree {
            Stmt::Let(definitions, body, _) => self.node(
                line,
                "let",
                &[Part::Definitions(definitions), Part::Stmt(body)],
            ),
            Stmt::LetBe(bind, such, body, _) => self.node(
                line,
                "let_be",
                &[Part::Bind(bind), Part::Given(such), Part::Stmt(body)],
            ),
            Stmt::Def(pattern, value, body, _) => self.node(
                line,
                "def",
                &[Part::Pattern(pattern), Part::Expr(value), Part::Stmt(body)],
            ),
            _ => self.repeating(line, tree),
        }
    }

    // Loops.
    fn repeating(&mut self, line: &mut Line<'_>, tree: &'t Stmt) {
        match tree {
            Stmt::While(condition, body, _) => {
                self.node(line, "while", &[Part::Expr(condition), Part::Stmt(body)])
            }
            Stmt::ForNumbers(name, _, first, last, step, body, _) => self.node(
                line,
                "for",
                &[
                    Part::Name(*name),
                    Part::Expr(first),
                    Part::Expr(last),
                    Part::Given(step),
                    Part::Stmt(body),
                ],
            ),
            Stmt::ForSet(pattern, set, body, _) => self.node(
                line,
                "for_all",
                &[Part::Pattern(pattern), Part::Expr(set), Part::Stmt(body)],
            ),
            Stmt::ForSequence(pattern, sequence, body, _) => self.node(
                line,
                "for_in",
                &[
                    Part::Pattern(pattern),
                    Part::Expr(sequence),
                    Part::Stmt(body),
                ],
            ),
            _ => line.say("?"),
        }
    }
}
