// Where faults of statements stand.

ghost use Rattle.std.specs.Prelude.{◌≡◌};
ghost use Rattle.abstract_syntax.specs.Statements.{stmt_place};
ghost use Rattle.vdm_tree.specs.StmtView.{stmt_view};

use crate::stmt::Stmt;
use vdm_kinds::Place;

impl Stmt {
    /// Where a fault of the statement stands.
    pub fn place(&self) -> Place
        ensures { result ≡ stmt_place (stmt_view self.now) }
    {
        match self {
            Stmt::Block(_, _, place)
            | Stmt::Assign(_, _, place)
            | Stmt::AssignTogether(_, place)
            | Stmt::Call(_, place)
            | Stmt::Return(_, place)
            | Stmt::Exit(_, place)
            | Stmt::Let(_, _, place)
            | Stmt::LetBe(_, _, _, place)
            | Stmt::Def(_, _, _, place)
            | Stmt::If(_, _, _, _, place)
            | Stmt::Cases(_, _, _, place)
            | Stmt::While(_, _, place)
            | Stmt::ForNumbers(_, _, _, _, _, _, place)
            | Stmt::ForSet(_, _, _, place)
            | Stmt::ForSequence(_, _, _, place)
            | Stmt::Trap(_, _, _, place)
            | Stmt::Tixe(_, _, place)
            | Stmt::Always(_, _, place)
            | Stmt::Parallel(_, place)
            | Stmt::Start(_, place)
            | Stmt::StartList(_, place)
            | Stmt::Skip(place)
            | Stmt::Error(place) => *place,
        }
    }
}
