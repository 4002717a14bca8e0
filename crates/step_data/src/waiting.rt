// What is done with what comes of a part.

use crate::assigning::Assigning;
use crate::block::Declaring;
use crate::calling::{Binding, Calling, Requesting};
use crate::class_making::ClassMaking;
use crate::goal::Goal;
use crate::making::Making;
use crate::meeting::{Defining, Elements, Given};
use crate::round::{ForLoop, Round};
use eval_data::{After, Flow, Frame, Here};
use expr_tree::Pattern;
use vdm_kinds::{Name, Place};
use vdm_tree::{Expr, Stmt, StmtBranch, StmtCase};
use vdm_values::Slot;

/// What is done with what comes of a part.
#[derive(Drop)]
pub enum Waiting<'t> {
    /// In an expression.
    Expr(Frame<'t>),
    /// Behind a need of the node at the place.
    After(After<'t>, Place),
    /// Behind the call of a call statement.
    Called,
    /// The statements that follow in a block, and how many locals stand before its own.
    Rest(Here<'t>, &'t [Stmt], usize),
    /// The locals that were bound for a statement go: so many stand before them.
    Cut(usize),
    /// It is the initial value of a local variable.
    Local(Box<Declaring<'t>>),
    /// It fits the type of the local variable.
    LocalFits(Box<Declaring<'t>>),
    /// It is assigned to this, by the statement at the place.
    Assign(Here<'t>, Goal<'t>, Place),
    /// It fits the type, and is written there, by the statement at the place.
    Store(Goal<'t>, Place),
    /// It is an index of a target, or behind all of them the value for the part.
    Index(Box<Assigning<'t>>),
    /// It is what a variable gets together with others.
    Join(Box<Assigning<'t>>),
    /// It fits the type of the variable that gets it.
    GoalFits(Box<Assigning<'t>>),
    /// It is returned, by the statement at the place.
    Return(Place),
    /// It fits the type of a parameter, as an argument at the place: so many are tested, the others follow, and then the call is asked for.
    Argument(Box<Requesting<'t>>, usize, Place),
    /// Behind a call: the locals of the node that calls come back.
    Back(Vec<(Name, Slot)>),
    /// It is the value of an expression in brackets in the pattern of a parameter.
    Parameters(Box<Binding<'t>>),
    /// It decides whether the body of a call begins.
    Pre(Box<Calling<'t>>),
    /// Behind the body of a call, before which so many locals stood.
    Body(Box<Calling<'t>>, usize),
    /// It fits the type of the result of a call.
    Leave(Box<Calling<'t>>),
    /// It decides whether a call ends, with this result.
    Post(Box<Calling<'t>>, Slot),
    /// It is what an initialiser gives.
    Initial(Box<Making<'t>>),
    /// It is what the initialiser of a static variable gives, which stands at the place.
    Static(Box<ClassMaking<'t>>, Place),
    /// It fits the type of its static variable, with its initialiser at the place: so many slots are tested, the others follow, and then
    /// the class object is made.
    StaticFits(Box<ClassMaking<'t>>, usize, Place),
    /// It fits the type of its variable: so many slots are tested, the others follow, and then the object is made.
    Slots(Box<Making<'t>>, usize),
    /// It is the value with which the statement at the place exits.
    Exit(Place),
    /// It decides on a branch of the statement at the place; behind that stand further ones, and the one where none is true.
    Branches(Here<'t>, &'t Box<Stmt>, &'t [StmtBranch], &'t Option<Box<Stmt>>, Place),
    /// Behind the node with which a round of a loop began.
    Round(Here<'t>, Round<'t>),
    /// Behind the body of a `while` at the place, before its condition comes once more.
    Again(Here<'t>, &'t Box<Expr>, &'t Box<Stmt>, Place),
    /// It is the first number of a loop.
    First(Here<'t>, ForLoop<'t>),
    /// It is the last number of a loop, behind the first.
    Last(Here<'t>, ForLoop<'t>, i128),
    /// It is the size of the steps of a loop, behind its first and its last number.
    By(Here<'t>, ForLoop<'t>, i128, i128),
    /// Behind the body of `always`: this statement comes last, among so many locals.
    AtLast(Here<'t>, &'t Box<Stmt>, usize),
    /// Behind the last statement of `always`, whose body left this.
    Replaced(Flow),
    /// Behind the body of `trap` at the place: its pattern, its handler, and how many locals stand before those of the pattern.
    Trapped(Here<'t>, &'t Box<Pattern>, &'t Box<Stmt>, Place, usize),
    /// It is what a definition gives.
    Defined(Box<Defining<'t>>),
    /// It fits the type of the definition.
    DefinedFits(Box<Defining<'t>>),
    /// Behind the search of `let be`: the statement, and how many locals stand before those of the choice.
    Found(Here<'t>, &'t Box<Stmt>, usize),
    /// It meets the patterns of the alternatives of the statement at the place.
    Subject(Here<'t>, &'t [StmtCase], &'t Option<Box<Stmt>>, usize, Place),
    /// It has the elements of a loop: a set.
    OfSet(Here<'t>, &'t Box<Pattern>, &'t Box<Stmt>, Place),
    /// ... and a sequence.
    OfSequence(Here<'t>, &'t Box<Pattern>, &'t Box<Stmt>, Place),
    /// Behind the body for one element.
    Element(Box<Elements<'t>>),
    /// It is the value of an expression in brackets in a pattern.
    Given(Box<Given<'t>>),
    /// It is the object whose thread is to start, by the statement at the place.
    Start(Place),
    /// They are the objects whose threads are to start.
    StartAll(Place),
    /// Behind the whole expression, which main ends with.
    End,
}
