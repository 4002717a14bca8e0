// What an assignment writes to.

ghost use Rattle.std.specs.Prelude.{◌≡◌, map};
ghost use Rattle.abstract_syntax.specs.Statements.{variable, variable_of_class};
ghost use Rattle.vdm_tree.specs.StmtView.{target_view, target_step_view};

use expr_tree::Expr;
use vdm_kinds::{Name, Place};

/// One step into what a target names.
#[derive(Drop)]
pub enum TargetStep {
    /// `.f`: the field, where its name stands, and where the `.` stands.
    Field(Name, Place, Place),
    /// `(e)`, whose `(` is at the place.
    Element(Box<Expr>, Place),
}

/// What an assignment writes to: a variable, at the place of its first token, and the steps into it.
#[derive(Drop)]
pub enum Target {
    /// A variable.
    Name(Name, Vec<TargetStep>, Place),
    /// ``C`x``: the class, the name, and where that stands.
    Qualified(Name, Name, Place, Vec<TargetStep>, Place),
}

impl Target {
    /// The variable, and the steps into it.
    pub fn variable(name: Name, steps: Vec<TargetStep>, place: Place) -> Target
        ensures { target_view result ≡ variable name (map target_step_view steps.items) place }
    {
        Target::Name(name, steps, place)
    }

    /// The variable of the class, which begins at `place`; its own name stands at `name_place`. And the steps into it.
    pub fn of_class(
        class: Name,
        name: Name,
        name_place: Place,
        steps: Vec<TargetStep>,
        place: Place,
    ) -> Target
        ensures { target_view result ≡ variable_of_class class name name_place (map target_step_view steps.items) place }
    {
        Target::Qualified(class, name, name_place, steps, place)
    }
}

/// A target and the value for it.
#[derive(Drop)]
pub struct Assignment {
    pub target: Target,
    pub value: Box<Expr>,
}
