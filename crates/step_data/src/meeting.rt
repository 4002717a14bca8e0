// Patterns of statements that meet values.

ghost use Rattle.std.specs.Prelude.{◌≡◌};

use eval_data::Here;
use expr_tree::{Defined, Pattern};
use type_tree::TypeExpr;
use vdm_kinds::Place;
use vdm_tree::{Expr, Handler, Stmt, StmtCase};
use vdm_values::Value;

/// What is done where a pattern of a statement matches the value, and where it does not. The count says how many locals stand before
/// those that the pattern binds.
#[derive(Drop)]
pub enum Follow<'t> {
    /// Of a definition: those behind it, and the statement for which they are bound.
    Definition(&'t [Defined], &'t Box<Stmt>, usize),
    /// Of an alternative: the further patterns of it, its statement, the alternatives behind it, and the statement behind all.
    Case(&'t [Pattern], &'t Box<Stmt>, &'t [StmtCase], &'t Option<Box<Stmt>>, usize),
    /// Of a loop over elements: its body, and the elements that are left, the next one last.
    Element(&'t Box<Stmt>, Vec<Value>, usize),
    /// Of `trap`: the handler, and where the exit comes from.
    Trap(&'t Box<Stmt>, Place, usize),
    /// Of `tixe`: all handlers, those behind this one, its statement, and where the exit comes from.
    Tixe(&'t [Handler], &'t [Handler], &'t Box<Stmt>, Place, usize),
}

/// A pattern of the statement at the place, and the value that it meets.
#[derive(Drop)]
pub struct Meeting<'t> {
    pub here: Here<'t>,
    pub place: Place,
    pub pattern: &'t Pattern,
    pub value: Value,
    pub follow: Follow<'t>,
}

/// A pattern before it meets its value: the expressions in brackets in it, of which one is being evaluated, and the values of those
/// before it.
pub struct Given<'t> {
    pub meeting: Meeting<'t>,
    pub found: Vec<&'t Box<Expr>>,
    /// The number of the one behind that.
    pub next: usize,
    pub given: Vec<Value>,
}

// By hand, so that whoever drops it calls this, and does not prove again the dropping of all that is in it.
impl<'t> Drop for Given<'t> {
    fn drop(self) {
        let Given {
            meeting: _,
            found: _,
            next: _,
            given: _,
        } = self;
    }
}

/// The elements of a loop that are left, the next one last.
pub struct Elements<'t> {
    pub here: Here<'t>,
    pub place: Place,
    pub pattern: &'t Pattern,
    pub body: &'t Box<Stmt>,
    pub count: usize,
    pub values: Vec<Value>,
}

impl<'t> Drop for Elements<'t> {
    fn drop(self) {
        let Elements {
            here: _,
            place: _,
            pattern: _,
            body: _,
            count: _,
            values: _,
        } = self;
    }
}

/// A definition of a statement, whose value is being evaluated or tested.
#[derive(Clone, Copy)]
pub struct Defining<'t> {
    pub here: Here<'t>,
    pub place: Place,
    pub pattern: &'t Box<Pattern>,
    pub declared: Option<&'t TypeExpr>,
    pub more: &'t [Defined],
    pub body: &'t Box<Stmt>,
    pub count: usize,
}

impl<'t> Given<'t> {
    /// What meets, and the values that were given.
    pub fn into_parts(self) -> (Meeting<'t>, Vec<Value>)
        ensures { result ≡ (self.entry.meeting, self.entry.given) }
    {
        let Given {
            meeting,
            found: _found,
            next: _,
            given,
        } = self;
        (meeting, given)
    }
}

impl<'t> Elements<'t> {
    /// The elements that are left.
    pub fn into_values(self) -> Vec<Value>
        ensures { result ≡ self.entry.values }
    {
        let Elements {
            here: _,
            place: _,
            pattern: _,
            body: _,
            count: _,
            values,
        } = self;
        values
    }
}
