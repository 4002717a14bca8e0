//! The rule over the word of a source and what its passes drew.
use atomic_table::{Join, Play, Seat, Shared, Split, Table, TableRule};
use std::alloc::Global;
use std::collections::LinkedList;

/// The one word, which has the next number.
pub(crate) const NEXT: usize = 0;

/// What a pass knows of its source. No value of it is made.
pub struct Drawn {
    /// For how many of the source's passes it stands: one, all that are joined, or none once it is spent.
    pub passes: u64,
    /// The numbers that they drew.
    pub numbers: LinkedList<u64>,
    /// What the source was told.
    pub about: Opening,
}

/// What a source is told once, when it is made: its first number, how many each pass may draw, and how many passes it has.
#[derive(Clone, Copy)]
pub struct Opening {
    pub first: u64,
    pub each: u64,
    pub passes: u64,
}

/// The rule of every source: `IsKept`.
pub struct Stamps;

impl TableRule<(), Drawn, Opening> for Stamps {
    ghost use Rattle.std.specs.Prelude.{[]};
    ghost use Rattle.stamp_source.specs.Rule.{IsKept, drawn};

    ghost holds = { IsKept };

    ghost first = { λ key. drawn key key.passes [] };
}

pub(crate) type Board = Table<(), Drawn, Opening, Stamps, Global>;

pub(crate) type Top = Shared<(), Drawn, Opening, Stamps>;

pub(crate) type Place = Seat<(), Drawn>;

/// A number is drawn.
pub(crate) struct Draw;

impl Play<(), Drawn> for Draw {
    ghost use Rattle.stamp_source.specs.Rule.{Draws};

    ghost then = { Draws };
}

/// One pass is cut off a view that drew nothing.
pub(crate) struct Part;

impl Split<Drawn> for Part {
    ghost use Rattle.std.specs.Prelude.{◌-◌, []};
    ghost use Rattle.stamp_source.specs.Rule.{drawn};

    ghost left = { λ v. drawn v.about (v.passes - 1) [] };

    ghost right = { λ v. drawn v.about 1 [] };
}

/// Two views become one.
pub(crate) struct Pool;

impl Join<Drawn> for Pool {
    ghost use Rattle.stamp_source.specs.Rule.{blank, pooled};

    ghost both = { pooled };

    ghost spent = { blank };
}
