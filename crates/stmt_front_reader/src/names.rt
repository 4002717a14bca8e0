// The names that second names have to be.

ghost use Rattle.std.specs.Prelude.{◌≡◌};
ghost use Rattle.stmt_fronts.specs.Viable as viable;
ghost use Rattle.stmt_front_reader.specs.Views.{names_view};

use stmt_fronts::Expected;
use vdm_kinds::Name;

/// The names of the class and of the definition that are open, or were the last.
#[derive(Clone, Copy)]
pub(crate) struct Names {
    class: Option<Name>,
    definition: Option<Name>,
}

/// Whether both are there, and the same name.
fn is_same(a: Option<Name>, b: Option<Name>) -> bool
    ensures { result ≡ viable.is_same a b }
{
    match (a, b) {
        (Some(a), Some(b)) => a.0 == b.0,
        _ => false,
    }
}

impl Names {
    /// No name was read yet.
    pub(crate) fn new() -> Names
        ensures { names_view result ≡ viable.no_names }
    {
        Names {
            class: None,
            definition: None,
        }
    }

    /// Whether a name may stand where this is wanted: a second name has to be the first.
    pub(crate) fn fits(self, expected: Expected, name: Option<Name>) -> bool
        ensures { result ≡ viable.fits (names_view self) expected name }
    {
        match expected {
            Expected::ClassNameAgain => is_same(self.class, name),
            Expected::DefinedNameAgain => is_same(self.definition, name),
            _ => true,
        }
    }

    /// The names behind a token where this was wanted.
    pub(crate) fn named(self, expected: Expected, name: Option<Name>) -> Names
        ensures { names_view result ≡ viable.named_by (names_view self) expected name }
    {
        if name.is_none() {
            return self;
        }
        match expected {
            Expected::ClassName => Names {
                class: name,
                definition: self.definition,
            },
            Expected::LevelOrName
            | Expected::StaticOrName
            | Expected::DefinedName
            | Expected::TypeDefs
            | Expected::ValueDefs
            | Expected::VariableItems
            | Expected::FunctionDefs
            | Expected::OperationDefs => Names {
                class: self.class,
                definition: name,
            },
            _ => self,
        }
    }
}
