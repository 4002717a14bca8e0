// What names mean in classes, with the members themselves.

ghost use Rattle.std.specs.Prelude.{◌≡◌, ℕ, None, Some};
ghost use Rattle.class_meaning.specs.Classes.{class_number, name_of_class};
ghost use Rattle.class_meaning.specs.Found.{found, own_in};
ghost use Rattle.member_meaning.specs.Meaning.{unknown, own_meant, found_meant, meaning};
ghost use Rattle.spec_table.specs.Meanings.{IsOwned, meant_view};
ghost use Rattle.spec_table.specs.Tables.{table_spec};

use crate::item::Item;
use crate::table::ClassTable;
use class_meaning::{Ask, Found};
use vdm_kinds::Name;

/// What a name means in a class.
#[derive(Clone, Copy)]
pub enum Meant<'t> {
    /// Nothing, and where there is no such class.
    Unknown,
    /// Superclasses don't agree.
    Ambiguous,
    /// This member of a class.
    One(Owner, Item<'t>),
}

/// The class that has a member.
#[derive(Clone, Copy)]
pub struct Owner {
    pub number: usize,
    pub name: Name,
}

impl ClassTable {
    /// What a name means in the class of a name, asked for in a way.
    pub fn meaning(&self, class: Name, ask: Ask) -> Meant<'_>
        ensures some { (k : ℕ) → class_number (table_spec self.now) class ≡ Some k → meant_view result ≡ meaning (table_spec self.now) ask k }
        ensures none { class_number (table_spec self.now) class ≡ None → meant_view result ≡ unknown }
        ensures owned { IsOwned (table_spec self.now) result }
    {
        match self.list.number(class) {
            Some(k) => self.meaning_at(k, ask),
            None => Meant::Unknown,
        }
    }

    fn meaning_at(&self, k: usize, ask: Ask) -> Meant<'_>
        ensures meant { meant_view result ≡ found_meant (table_spec self.now) ask (found (table_spec self.now) ask k) }
        ensures owned { IsOwned (table_spec self.now) result }
    {
        match self.found(k, ask) {
            Found::Nothing => Meant::Unknown,
            Found::Several => Meant::Ambiguous,
            Found::One(owner) => self.own_meant(owner, ask),
        }
    }

    fn own_meant(&self, owner: usize, ask: Ask) -> Meant<'_>
        ensures meant { meant_view result ≡ own_meant owner (own_in (table_spec self.now) ask owner) }
        ensures owned { IsOwned (table_spec self.now) result }
    {
        match self.own_member(owner, ask) {
            Some(item) => Meant::One(self.owner(owner), item),
            None => Meant::Unknown,
        }
    }

    fn owner(&self, number: usize) -> Owner
        ensures number { result.number ≡ number }
        ensures named { result.name ≡ name_of_class (table_spec self.now) number }
    {
        Owner {
            number,
            name: self.name_of_class(number),
        }
    }
}
