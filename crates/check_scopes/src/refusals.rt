// What is refused: the first of all in text order.

ghost use Rattle.std.specs.Prelude.{◌≡◌, None, Some};
ghost use Rattle.class_checks.specs.Results.{refusal, refused_if, is_before as stands_before, first_of, first_among};
ghost use Rattle.check_scopes.specs.Told.{first_in};

use vdm_kinds::{Place, SpecFault, SpecKind};

/// The refusal at the first place in text order, and there the one with the least number, of all that were refused so far.
#[derive(Drop)]
pub struct Refusals {
    first: Option<SpecFault>,
}

impl Refusals {
    /// Nothing is refused yet.
    pub fn new() -> Refusals
        ensures { first_in result ≡ None }
    {
        Refusals { first: None }
    }

    /// The first one.
    pub fn first(&self) -> Option<SpecFault>
        ensures { result ≡ first_in self.now }
    {
        self.first
    }

    /// Refuses at a place.
    pub fn refuse(&mut self, kind: SpecKind, place: Place)
        ensures { first_in self.new ≡ first_of (first_in self.old) (refusal kind place) }
    {
        self.first = first_of(self.first, SpecFault { kind, place });
    }

    /// Refuses at a place where it is to be refused.
    pub fn refuse_if(&mut self, refused: bool, kind: SpecKind, place: Place)
        ensures { first_in self.new ≡ first_among (first_in self.old) (refused_if refused kind place) }
    {
        if refused {
            self.refuse(kind, place);
        }
    }
}

fn first_of(least: Option<SpecFault>, refused: SpecFault) -> Option<SpecFault>
    ensures { result ≡ first_of least refused }
{
    match least {
        None => Some(refused),
        Some(least) => Some(first_of_both(least, refused)),
    }
}

fn first_of_both(least: SpecFault, refused: SpecFault) -> SpecFault
    ensures { first_of (Some least) refused ≡ Some result }
{
    if is_before(&refused, &least) {
        refused
    } else {
        least
    }
}

fn is_before(a: &SpecFault, b: &SpecFault) -> bool
    ensures { result ≡ stands_before a.now b.now }
{
    if a.place.line != b.place.line {
        return a.place.line < b.place.line;
    }
    if a.place.column != b.place.column {
        return a.place.column < b.place.column;
    }
    a.kind.number() < b.kind.number()
}
