// Names.

ghost use Rattle.std.specs.Prelude.{◌≡◌, drop};
ghost use Rattle.stmt_reading.specs.Leaves.{name_in, name_again};
ghost use Rattle.leaf_reader.specs.Reads.{Finds, Reads, Takes, same};

use crate::no_tree::{NO_TREE, NoTree};
use crate::source::Source;
use grammar_tokens::Token;
use vdm_kinds::{Halt, Name, NameAt};

impl Source {
    /// The name that comes next, if one does.
    fn next_name(&self) -> Option<NameAt>
        ensures { Finds result same (name_in self.now) (drop 1 self.now) }
    {
        match self.next()? {
            Token::Identifier(name, place) => Some(NameAt {
                name: *name,
                place: *place,
            }),
            _ => None,
        }
    }

    /// Takes a name where one comes next. Else nothing changes.
    pub fn take_name(&mut self) -> Option<NameAt>
        ensures { Takes result same (name_in self.old) self.old self.new }
    {
        let name = self.next_name()?;
        self.skip();
        Some(name)
    }

    /// Takes a name.
    pub fn name(&mut self) -> Result<NameAt, Halt<NoTree>>
        ensures { Reads result same (name_in self.old) self.new }
    {
        self.take_name().ok_or(NO_TREE)
    }

    /// Takes a name that was read before.
    pub fn name_again(&mut self, name: Name) -> Result<NameAt, Halt<NoTree>>
        ensures { Reads result same (name_again name self.old) self.new }
    {
        let found = self.name()?;
        if found.name != name {
            return Err(NO_TREE);
        }
        Ok(found)
    }
}
