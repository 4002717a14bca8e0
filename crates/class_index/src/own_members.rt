// The members that a class itself has, by their names.

use crate::block_items::{item_count, member_in};
use crate::member_at::MemberAt;
use crate::notes::{note_call, note_name};
use class_meaning::Ask;
use std::alloc::Global;
use std::collections::HashMap;
use vdm_kinds::OutOfMemory;
use vdm_tree::{Block, ClassDef};

/// The members that a class itself has, by how they are asked for.
pub struct OwnMembers {
    types: HashMap<u32, MemberAt>,
    /// Values and variables.
    named: HashMap<u32, MemberAt>,
    /// Functions and operations, by their names and how many parameters they have.
    called: HashMap<(u32, usize), MemberAt>,
}

// A derived drop would be proved again in each crate that drops an index.
impl Drop for OwnMembers {
    fn drop(self) {
        let OwnMembers {
            types: _,
            named: _,
            called: _,
        } = self;
    }
}

impl OwnMembers {
    ghost use Rattle.std.specs.Prelude.{◌≡◌, if◌then◌else◌, map, take, drop, Some, None, IfOk, OnOk};
    ghost use Rattle.vdm_tree.specs.ClassView.{class_view, block_view};
    ghost use Rattle.class_meaning.specs.Members.{or_else};
    ghost use Rattle.class_meaning.specs.declared.ask.Ask.{Ask};
    ghost use Rattle.class_index.specs.Answers.{Indexes, answer_of, own_place};
    ghost use Rattle.class_index.specs.Places.{is_same_ask, items_of, placed_items, placed_blocks, first_place};

    /// The members of a class. Of several that answer alike the first is found.
    pub fn of(alloc: Global, class: &ClassDef) -> Result<OwnMembers, OutOfMemory>
        ensures { IfOk result (λ members. Indexes members (class_view class.now)) }
    {
        let mut members = OwnMembers::none(alloc);
        members.note_blocks(&class.blocks)?;
        Ok(members)
    }

    /// The members of no class.
    fn none(alloc: Global) -> OwnMembers
        ensures { (ask : Ask) → own_place result ask ≡ None }
    {
        OwnMembers {
            types: HashMap::new(alloc),
            named: HashMap::new(alloc),
            called: HashMap::new(alloc),
        }
    }

    /// Notes a place, where no earlier one is asked for so.
    fn note(&mut self, asked: Ask, at: MemberAt) -> Result<(), OutOfMemory>
        ensures { OnOk result ((ask : Ask) → own_place self.new ask ≡ or_else (own_place self.old ask) (if is_same_ask ask asked then Some at else None)) }
    {
        match asked {
            Ask::AsType(name) => note_name(&mut self.types, name, at),
            Ask::ByName(name) => note_name(&mut self.named, name, at),
            Ask::Called(name, count) => note_call(&mut self.called, name, count, at),
        }
    }

    /// Notes the item of a number in a block, where it is a member.
    fn note_item(&mut self, number: usize, block: &Block, item: usize) -> Result<(), OutOfMemory>
        ensures { OnOk result ((ask : Ask) → own_place self.new ask ≡ or_else (own_place self.old ask) (first_place ask (placed_items number item (take 1 (drop item (items_of (block_view block.now))))))) }
    {
        if let Some((kind, asked)) = member_in(block, item) {
            let at = MemberAt {
                kind,
                block: number,
                item,
            };
            self.note(asked, at)?;
        }
        Ok(())
    }

    /// Notes the members in a block.
    fn note_block(&mut self, number: usize, block: &Block) -> Result<(), OutOfMemory>
        ensures { OnOk result ((ask : Ask) → own_place self.new ask ≡ or_else (own_place self.old ask) (first_place ask (placed_items number 0 (items_of (block_view block.now))))) }
    {
        for item in 0..item_count(block) {
            self.note_item(number, block, item)?;
        }
        Ok(())
    }

    /// Notes the members in blocks.
    fn note_blocks(&mut self, blocks: &[Block]) -> Result<(), OutOfMemory>
        ensures { OnOk result ((ask : Ask) → own_place self.new ask ≡ or_else (own_place self.old ask) (first_place ask (placed_blocks 0 (map block_view blocks.now)))) }
    {
        for number in 0..blocks.len() {
            self.note_block(number, &blocks[number])?;
        }
        Ok(())
    }

    /// The class's own answer.
    pub fn answer(&self, ask: Ask) -> Option<MemberAt>
        ensures { result ≡ answer_of self.now ask }
    {
        match ask {
            Ask::AsType(name) => self.types.get(&name.0).copied(),
            Ask::ByName(name) => self.named.get(&name.0).copied(),
            Ask::Called(name, count) => match self.called.get(&(name.0, count)) {
                Some(at) => Some(*at),
                None => self.named.get(&name.0).copied(),
            },
        }
    }
}
