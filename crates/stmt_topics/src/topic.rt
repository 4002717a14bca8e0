// What kinds of statements there are to the checker.

ghost use Rattle.std.specs.Prelude.{◌≡◌};
ghost use Rattle.vdm_tree.specs.StmtView.{stmt_view};
ghost use Rattle.stmt_topics.specs.Topics.{topic_of};

use vdm_tree::Stmt;

/// What a statement is to the checker.
#[derive(Clone, Copy)]
pub enum Topic {
    /// No other statement stands in it.
    Simple,
    /// Other statements stand inside what it binds or declares.
    Bound,
    /// Other statements stand where it does, or inside patterns that are tried one after the other.
    Chosen,
}

/// What the statement is to the checker.
pub fn stmt_topic(stmt: &Stmt) -> Topic
    ensures { result ≡ topic_of (stmt_view stmt.now) }
{
    match stmt {
        Stmt::Block(_, _, _)
        | Stmt::Let(_, _, _)
        | Stmt::LetBe(_, _, _, _)
        | Stmt::Def(_, _, _, _)
        | Stmt::ForNumbers(_, _, _, _, _, _, _)
        | Stmt::ForSet(_, _, _, _)
        | Stmt::ForSequence(_, _, _, _)
        | Stmt::Trap(_, _, _, _) => Topic::Bound,
        Stmt::If(_, _, _, _, _)
        | Stmt::Cases(_, _, _, _)
        | Stmt::While(_, _, _)
        | Stmt::Tixe(_, _, _)
        | Stmt::Always(_, _, _)
        | Stmt::Parallel(_, _) => Topic::Chosen,
        _ => Topic::Simple,
    }
}
