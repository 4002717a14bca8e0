// Who may name a member, and which operation a call through an object reaches.

ghost use Rattle.std.specs.Prelude.{◌≡◌, ℕ, Some, option_map};
ghost use Rattle.std.specs.List.{find};
ghost use Rattle.vdm_kinds.specs.declared.access.Level.TheVariants.{Private, Protected};
ghost use Rattle.abstract_syntax.specs.Classes.{SpecTree};
ghost use Rattle.class_meaning.specs.Calls.{is_visible, is_private_level, is_private, reached};
ghost use Rattle.class_meaning.specs.Classes.{class_number};
ghost use Rattle.class_meaning.specs.declared.ask.Ask.TheVariants.{Called};
ghost use Rattle.spec_table.specs.Members.{own_member, number_of, has_named, named_operation, keeper, reached_through};
ghost use Rattle.spec_table.specs.Tables.{table_spec};

use crate::item::{Item, is_same_kind};
use crate::table::ClassTable;
use class_meaning::{Ask, MemberKind};
use vdm_kinds::{Access, Level, Name, OpRef};

impl ClassTable {
    /// Whether a member of the class `owner` with this access may be named in the class `from`; the expression of a run stands in none.
    /// False where there is no class `owner`, unless the member is public.
    pub fn visible(&self, from: Option<Name>, owner: Name, access: Access) -> bool
        ensures { (o : ℕ) → class_number (table_spec self.now) owner ≡ Some o → result ≡ is_visible (table_spec self.now) (number_of (table_spec self.now) from) o access.level }
    {
        match access.level {
            Level::Public => true,
            Level::Protected => self.is_below(from, owner),
            Level::Private => self.is_within(from, owner),
        }
    }

    #[tactic(auto, using(crate::proofs::Reaching::below_right))]
    fn is_below(&self, from: Option<Name>, owner: Name) -> bool
        ensures { (o : ℕ) → class_number (table_spec self.now) owner ≡ Some o → result ≡ is_visible (table_spec self.now) (number_of (table_spec self.now) from) o Protected }
    {
        match from {
            Some(class) => self.descends(class, owner),
            None => false,
        }
    }

    fn is_within(&self, from: Option<Name>, owner: Name) -> bool
        ensures { (o : ℕ) → class_number (table_spec self.now) owner ≡ Some o → result ≡ is_visible (table_spec self.now) (number_of (table_spec self.now) from) o Private }
    {
        is_owner(self.number_of(from), self.list.number(owner))
    }

    fn number_of(&self, class: Option<Name>) -> Option<usize>
        ensures { result ≡ number_of (table_spec self.now) class }
    {
        match class {
            Some(class) => self.list.number(class),
            None => None,
        }
    }

    /// The operation that a call through an object of the class reaches, where the call stands in the class `from`: that class's own one
    /// where it is private and the object is of that class, else the first on the way up. None where there is none of the name and number,
    /// and where there is no such class.
    pub fn reached(&self, from: Option<Name>, class: Name, name: Name, arity: u32) -> Option<OpRef>
        ensures { (k : ℕ) → class_number (table_spec self.now) class ≡ Some k → result ≡ reached (table_spec self.now) (number_of (table_spec self.now) from) k name arity }
    {
        let keeper = self.keeper(from, class, name, arity);
        self.reached_through(keeper, self.ancestors(class), name, arity)
    }

    // The class in which the call stands, where it keeps a private operation of its own from all others.
    fn keeper(&self, from: Option<Name>, class: Name, name: Name, arity: u32) -> Option<Name>
        ensures { result ≡ keeper (table_spec self.now) class name arity from }
    {
        match from {
            Some(inner) => self.keeper_in(inner, class, name, arity),
            None => None,
        }
    }

    fn keeper_in(&self, inner: Name, class: Name, name: Name, arity: u32) -> Option<Name>
        ensures { result ≡ keeper (table_spec self.now) class name arity (Some inner) }
    {
        if self.descends(class, inner) && self.is_private(inner, name, arity) {
            Some(inner)
        } else {
            None
        }
    }

    fn reached_through(
        &self,
        keeper: Option<Name>,
        classes: &[Name],
        name: Name,
        arity: u32,
    ) -> Option<OpRef>
        ensures { result ≡ reached_through (table_spec self.now) name arity keeper classes.now }
    {
        match keeper {
            Some(class) => Some(OpRef { class, name, arity }),
            None => self.first_with(classes, name, arity),
        }
    }

    fn is_private(&self, class: Name, name: Name, arity: u32) -> bool
        ensures { result ≡ is_private (own_member (table_spec self.now) class (Called name arity)) }
    {
        match self.member(class, Ask::Called(name, arity as usize)) {
            Some(Item::Operation(definition)) => is_private_level(definition.access.level),
            _ => false,
        }
    }

    fn first_with(&self, classes: &[Name], name: Name, arity: u32) -> Option<OpRef>
        ensures { result ≡ option_map (named_operation name arity) (find (has_named (table_spec self.now) name arity) classes.now) }
    {
        for class in classes {
            if self.has_operation(*class, name, arity) {
                return Some(OpRef {
                    class: *class,
                    name,
                    arity,
                });
            }
        }
        None
    }

    fn has_operation(&self, class: Name, name: Name, arity: u32) -> bool
        ensures { result ≡ has_named (table_spec self.now) name arity class }
    {
        match self.member(class, Ask::Called(name, arity as usize)) {
            Some(item) => is_same_kind(MemberKind::Operation, item.kind()),
            None => false,
        }
    }
}

fn is_private_level(level: Level) -> bool
    ensures { result ≡ is_private_level level }
{
    match level {
        Level::Private => true,
        Level::Protected => false,
        Level::Public => false,
    }
}

fn is_owner(class: Option<usize>, owner: Option<usize>) -> bool
    ensures { (spec : SpecTree) (o : ℕ) → owner ≡ Some o → result ≡ is_visible spec class o Private }
{
    match (class, owner) {
        (Some(k), Some(o)) => k == o,
        _ => false,
    }
}
